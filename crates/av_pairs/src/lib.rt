// TargetInfo (MS-NLMP 2.2.2.1): a list of AvPairs, each an id, a length and a value, up to the end pair.
#![tactic(auto)]

ghost use Rattle.std.specs.Prelude.{◌≡◌, ◌+◌, ◌<◌, ◌^◌};
ghost use Rattle.av_pairs.specs.AvPairs.{pair_there, end_pair_holds, value_inside, value_size_holds, pair_of, step_at, ask_at, count_pairs, check_pairs};

use av_id::AvId;
use wire::check::{Checked, check};
use wire::number::u16_at;
use wire::refusal::Refusal;

pub mod walk;

#[derive(Clone, Copy)]
pub struct AvPair {
    pub id: AvId,
    // The place of the value, counted from the start of the list.
    pub at: usize,
    pub len: u16,
}

// What asking at a place of a list gives, and the place to ask at next.
#[derive(Clone, Copy)]
pub struct Asked {
    pub step: Result<Option<AvPair>, Refusal>,
    pub next: usize,
}

// Check 11.
fn pair_there(left: usize) -> Checked
    ensures { result ≡ pair_there left }
{
    check(4 <= left)
}

// Check 12.
fn end_pair_holds(id: AvId, len: u16, left: usize) -> Checked
    ensures { result ≡ end_pair_holds id len left }
{
    check(!id.is_end() | ((len == 0) & (left == 4)))
}

// Check 10.
fn value_inside(len: u16, left: usize) -> Checked
    ensures { result ≡ value_inside len left }
{
    check(4 + len as usize <= left)
}

// Check 13.
fn size_holds(id: AvId, len: u16) -> Checked
    ensures { result ≡ value_size_holds id len }
{
    check(id.size_allowed(len))
}

// The pair with this id and length whose head stands at `at`, where so many bytes are left. Inlined, as `step_at` is: its answer has two tags,
// and handed back through memory it is stored in other pieces than it is loaded in.
#[inline(always)]
fn pair_of(id: AvId, len: u16, at: usize, left: usize) -> Result<Option<AvPair>, Refusal>
    requires { at + 4 < 2 ^ 64 }
    ensures { result ≡ pair_of id len at left }
{
    let Checked::Held = end_pair_holds(id, len, left) else {
        return Err(Refusal::WrongEndPair(at));
    };
    let Checked::Held = value_inside(len, left) else {
        return Err(Refusal::PairPastEnd(at));
    };
    let Checked::Held = size_holds(id, len) else {
        return Err(Refusal::WrongPairSize(at));
    };
    if id.is_end() {
        return Ok(None);
    }
    Ok(Some(AvPair {
        id: id,
        at: at + 4,
        len: len,
    }))
}

// What stands at a place of a list: a pair, no pair at the end, or the refusal of a faulty one. An empty list is at its end everywhere.
#[inline(always)]
pub fn step_at(list: &[u8], at: usize) -> Result<Option<AvPair>, Refusal>
    ensures { result ≡ step_at list.now at }
{
    if list.len() == 0 {
        return Ok(None);
    }
    let left = list.len().saturating_sub(at);
    let Checked::Held = pair_there(left) else {
        return Err(Refusal::PairMissing(at));
    };
    let id = AvId {
        id: u16_at(list, at),
    };
    let len = u16_at(list, at + 2);
    pair_of(id, len, at, left)
}

// Asks at a place, and moves on past a pair; the end and a fault stay where they are.
pub fn ask_at(list: &[u8], at: usize) -> Asked
    ensures { result ≡ ask_at list.now at }
{
    let step = step_at(list, at);
    match step {
        Ok(Some(p)) => Asked {
            step,
            next: p.at + p.len as usize,
        },
        Ok(None) => Asked { step, next: at },
        Err(_) => Asked { step, next: at },
    }
}

// Checks 10 to 13 over the whole list: how many pairs it holds, the end pair left out, or the refusal of the earliest faulty pair.
pub fn count_pairs(list: &[u8]) -> Result<usize, Refusal>
    ensures { result ≡ count_pairs list.now }
{
    let mut at: usize = 0;
    let mut n: usize = 0;
    while let Some(p) = step_at(list, at)? {
        at = p.at + p.len as usize;
        n += 1;
    }
    Ok(n)
}

// Checks 10 to 13 over the whole list, without the count.
pub fn check_pairs(list: &[u8]) -> Result<(), Refusal>
    ensures { result ≡ check_pairs list.now }
{
    count_pairs(list)?;
    Ok(())
}
