// Answers as numbers, and numbers handed out in a lent array: what every call of the C interface is made of.
#![tactic(auto)]

ghost use Rattle.std.specs.Prelude.{ℕ, List, ◌≡◌, ◌≤◌, ◌<◌, ◌++◌, length, drop, Ok, Err};
ghost use Rattle.wire.specs.declared.refusal.Refusal.{Refusal};
ghost use Rattle.wire.specs.declared.refusal.Refusal.TheVariants.{NoRoom};
ghost use Rattle.place.specs.Written.{at_front, bytes_answer, bytes_after};
ghost use Rattle.c_number.specs.Number.{place_shown, refusal_number, verdict_number, written_number};
ghost use Rattle.c_number.specs.Outcome.{Outcome, Finds, FindsBoth, call_number, call_out, rooms_hold, two_array_number, two_array_out, two_array_bytes};

use place::Place;
use place::written::room_holds;
use std::convert::AsSlice;
use wire::check::{Checked, check};
use wire::number::copy_items;
use wire::refusal::Refusal;

fn place_shown(at: usize) -> u64
    ensures { (result ≡ place_shown at) × (result < 0x800000000000) }
{
    at.min(0x7FFFFFFFFFFF) as u64
}

pub fn refusal_number(e: Refusal) -> u64
    ensures { result ≡ refusal_number e }
{
    0x8000000000000000
        + (65536 * place_shown(e.place()) + (256 * u64::from(e.number()) + u64::from(e.field())))
}

pub fn verdict_number(verdict: Result<(), Refusal>) -> u64
    ensures { result ≡ verdict_number verdict }
{
    match verdict {
        Ok(()) => 0,
        Err(e) => refusal_number(e),
    }
}

pub fn written_number(written: Result<usize, Refusal>) -> u64
    ensures { result ≡ written_number written }
{
    match written {
        Ok(n) => n as u64,
        Err(e) => refusal_number(e),
    }
}

// The number of a line's writing, which is refused 33 or not at all. Not `written_number`, which links the table of all refusals.
pub fn line_number(written: Result<usize, Refusal>) -> u64
    requires { (e : Refusal) → written ≡ Err e → e ≡ NoRoom }
    ensures { result ≡ written_number written }
{
    match written {
        Ok(n) => n as u64,
        Err(_) => refusal_number(Refusal::NoRoom),
    }
}

// Check 33 of a call with two arrays.
fn rooms_hold(n: usize, room: usize, m: usize, room2: usize) -> Checked
    ensures { result ≡ rooms_hold n room m room2 }
{
    check((n <= room) & (m <= room2))
}

// Items at the front of a lent array that has room for them; the answer is that of a call that was not refused.
pub fn give<T: Copy>(out: &mut [T], items: &[T]) -> u64
    requires { length items.now ≤ length out.old }
    ensures answer { result ≡ 0 }
    ensures content { out.new ≡ items.now ++ drop (length items.now) out.old }
{
    let end = items.len();
    copy_items(&mut out[..end], items);
    0
}

// Bytes at the front of a lent array that has room for them.
pub fn give_bytes(out: &mut [u8], bytes: &[u8])
    requires { length bytes.now ≤ length out.old }
    ensures { out.new ≡ at_front bytes.now out.old }
{
    Place { at: 0 }.put_bytes(out, bytes);
}

// A call that hands out the `n` numbers of a reading, or its refusal. An array with no room for them is refused 33, before anything is read.
#[tactic(auto, unfolding(crate::specs::Outcome::call_number, crate::specs::Outcome::call_out))]
pub fn hand_out<A: AsSlice<u64> + Copy, F: FnOnce() -> Result<A, Refusal>>(
    out: &mut [u64],
    n: usize,
    read: F,
) -> u64
    requires callable { F.IsAlwaysCallable read }
    requires count { (found : _) → F.post read (Ok found) → length (A.items found) ≡ n }
    ensures answer { (h : Outcome) → ((found : _) → F.post read found → Finds A.items found h) → result ≡ call_number n h (length out.old) }
    ensures content { (h : Outcome) → ((found : _) → F.post read found → Finds A.items found h) → out.new ≡ call_out n h out.old }
{
    let Checked::Held = room_holds(n, out.len()) else {
        return refusal_number(Refusal::NoRoom);
    };
    match read() {
        Ok(found) => give(out, found.as_slice()),
        Err(e) => refusal_number(e),
    }
}

// The same, with the `m` bytes of the reading in a second array.
#[tactic(auto, unfolding(crate::specs::Outcome::two_array_number, crate::specs::Outcome::two_array_out, crate::specs::Outcome::two_array_bytes))]
pub fn hand_out_beside<
    A: AsSlice<u64> + Copy,
    B: AsSlice<u8> + Copy,
    F: FnOnce() -> Result<(A, B), Refusal>,
>(out: &mut [u64], n: usize, beside: &mut [u8], m: usize, read: F) -> u64
    requires callable { F.IsAlwaysCallable read }
    requires count { (found : _) → F.post read (Ok found) → length (A.items found.0) ≡ n }
    requires count_beside { (found : _) → F.post read (Ok found) → length (B.items found.1) ≡ m }
    ensures answer { (h : Outcome) → ((found : _) → F.post read found → Finds (λ f. A.items f.0) found h) →
        result ≡ two_array_number n m h (length out.old) (length beside.old) }
    ensures content { (h : Outcome) → ((found : _) → F.post read found → Finds (λ f. A.items f.0) found h) →
        out.new ≡ two_array_out n m h out.old (length beside.old) }
    ensures beside { (h : Outcome) (bytes : List ℕ) → ((found : _) → F.post read found → FindsBoth A.items B.items found h bytes) →
        beside.new ≡ two_array_bytes n m h bytes (length out.old) beside.old }
{
    let Checked::Held = rooms_hold(n, out.len(), m, beside.len()) else {
        return refusal_number(Refusal::NoRoom);
    };
    match read() {
        Ok((numbers, bytes)) => {
            give_bytes(beside, bytes.as_slice());
            give(out, numbers.as_slice())
        }
        Err(e) => refusal_number(e),
    }
}

// Copies bytes into a lent output: how many, or 33 with the output as it was.
#[tactic(auto, unfolding(place::specs::Written::bytes_answer, place::specs::Written::bytes_after))]
pub fn copy(out: &mut [u8], bytes: &[u8]) -> Result<usize, Refusal>
    ensures answer { result ≡ bytes_answer bytes.now out.old }
    ensures content { out.new ≡ bytes_after bytes.now out.old }
{
    let Checked::Held = room_holds(bytes.len(), out.len()) else {
        return Err(Refusal::NoRoom);
    };
    give_bytes(out, bytes);
    Ok(bytes.len())
}
