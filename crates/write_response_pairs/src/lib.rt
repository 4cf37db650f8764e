// The pair list that goes back in the answer (source document 004): the challenge's pairs, with pairs 6, 10 and 9 as they are due.
#![tactic(auto)]

pub mod av_flags;

ghost use Rattle.std.specs.Prelude.{◌≡◌, true, cond, [], ◌∷◌, ◌+◌, ◌≤◌, min, eqb, length, Ok};
ghost use Rattle.av_id.specs.AvId.{end_id, flags_id, is_flags, is_timestamp};
ghost use Rattle.av_pairs.specs.AvPairs.{check_pairs, values_of};
ghost use Rattle.place.specs.Place.{Wrote, le32};
ghost use Rattle.write_response_pairs.specs.ResponsePairs.{pair_with, has_pair, left_out, kept, bits_due, with_bits, adds_flags, added_pairs};
ghost use Rattle.write_response_pairs.specs.ResponsePairs.{pair_bytes, pairs_bytes, pair_bytes_back, list_bytes, list_with, check_list, list_answer, list_out, write_answer, write_out};

use crate::av_flags::AvFlags;
use av_id::AvId;
use av_pairs::AvPair;
use place::Place;
use place::written::{add_capped, room_holds, size_holds};
use read_challenge::read_full;
use target_info::{pair_at, value_of};
use wire::check::{Checked, check};
use wire::number::u32_at;
use wire::refusal::Refusal;

// What the caller gives for the pairs that are added: the target name, whether it is marked unverified, and the channel bindings.
#[derive(Clone, Copy)]
struct Added<'a> {
    pub name: &'a [u8],
    pub unverified: bool,
    pub bindings: &'a [u8],
}

// What the walk over a list finds: the size of the pairs that are kept, as it is counted for check 30, and whether a timestamp
// and a flags pair are there.
#[derive(Clone, Copy, Default)]
struct Seen {
    pub size: usize,
    pub timestamp: bool,
    pub flags: bool,
}

// The list that is to be written: its size, as it is counted for check 30, the bits that are due, and whether a flags pair is
// added for them.
#[derive(Clone, Copy)]
struct Plan {
    pub size: usize,
    pub bits: u32,
    pub adds: bool,
}

fn left_out(id: AvId) -> bool
    ensures { result ≡ left_out id }
{
    id.is_target_name() | id.is_channel_bindings()
}

// How many bytes a pair takes in the list that goes back.
#[tactic(auto, using(wire::proofs::Laws::branches))]
fn kept_size(id: AvId, len: u16) -> usize
    ensures { result ≡ cond (left_out id) 0 (4 + len) }
{
    if left_out(id) {
        return 0;
    }
    4 + len as usize
}

// Goes over a list once.
fn look_over(list: &[u8]) -> Seen
    requires { check_pairs list.now ≡ Ok tt }
    ensures size { result.size ≡ min 65536 (length (pairs_bytes (kept (values_of list.now)))) }
    ensures timestamp { result.timestamp ≡ has_pair is_timestamp (values_of list.now) }
    ensures flags { result.flags ≡ has_pair is_flags (values_of list.now) }
{
    let mut seen = Seen::default();
    let mut at: usize = 0;
    while let Some(p) = pair_at(list, at) {
        seen.size = add_capped(seen.size, kept_size(p.id, p.len));
        seen.timestamp |= p.id.is_timestamp();
        seen.flags |= p.id.is_flags();
        at = p.at + p.len as usize;
    }
    seen
}

// A pair's head and value.
fn put_pair(place: Place, out: &mut [u8], id: u16, value: &[u8]) -> Place
    requires { (length value.now ≤ 65535) × (place.at + (4 + length value.now) ≤ length out.old) }
    ensures { Wrote out.old out.new place.at result.at (pair_bytes (pair_with id value.now)) }
{
    let place = place.put_u16(out, id);
    let place = place.put_u16(out, value.len() as u16);
    place.put_bytes(out, value)
}

// A flags pair with these bits.
fn put_flags(place: Place, out: &mut [u8], bits: u32) -> Place
    requires { place.at + 8 ≤ length out.old }
    ensures { Wrote out.old out.new place.at result.at (pair_bytes (pair_with flags_id (le32 bits))) }
{
    let place = place.put_u16(out, AvId::FLAGS);
    let place = place.put_u16(out, 4);
    place.put_u32(out, bits)
}

// The end pair, which has no value.
fn put_end(place: Place, out: &mut [u8]) -> Place
    requires { place.at + 4 ≤ length out.old }
    ensures { Wrote out.old out.new place.at result.at (pair_bytes (pair_with end_id [])) }
{
    put_pair(place, out, AvId::END, b"")
}

// A pair of the list as it goes back, if it does, with the bits that are still due: from the start of the lent part on.
fn put_part(out: &mut [u8], list: &[u8], p: AvPair, bits: u32) -> Place
    requires { (p.at + p.len ≤ length list.now) × (is_flags p.id ≡ true → p.len ≡ 4) × (p.len ≤ 65535)
        × (length (pair_bytes_back bits list.now p) ≤ length out.old) }
    ensures { Wrote out.old out.new 0 result.at (pair_bytes_back bits list.now p) }
{
    let place = Place { at: 0 };
    let id = p.id;
    if left_out(id) {
        return place;
    }
    let value = value_of(list, p);
    if id.is_flags() & (bits != 0) {
        return put_flags(place, out, u32_at(value, 0) | bits);
    }
    put_pair(place, out, id.id, value)
}

// The pair at its place: its writer is lent the output from there on.
fn put_one(place: Place, out: &mut [u8], list: &[u8], p: AvPair, bits: u32) -> Place
    requires { (p.at + p.len ≤ length list.now) × (is_flags p.id ≡ true → p.len ≡ 4) × (p.len ≤ 65535)
        × (place.at + length (pair_bytes_back bits list.now p) ≤ length out.old) }
    ensures { Wrote out.old out.new place.at result.at (pair_bytes_back bits list.now p) }
{
    let at = place.at;
    let end = put_part(&mut out[at..], list, p, bits);
    Place { at: at + end.at }
}

// The bits that are due behind a pair.
#[tactic(auto, using(wire::proofs::Laws::branches))]
fn bits_after(bits: u32, id: AvId) -> u32
    ensures { result ≡ cond (is_flags id) 0 bits }
{
    if id.is_flags() {
        return 0;
    }
    bits
}

// Writes the pairs of a list that are kept, from the start of the output on.
fn put_kept(out: &mut [u8], list: &[u8], due: u32) -> Place
    requires { (check_pairs list.now ≡ Ok tt) × (length (pairs_bytes (with_bits due (kept (values_of list.now)))) ≤ length out.old) }
    ensures { Wrote out.old out.new 0 result.at (pairs_bytes (with_bits due (kept (values_of list.now)))) }
{
    let mut at: usize = 0;
    let mut place = Place { at: 0 };
    let mut bits = due;
    while let Some(p) = pair_at(list, at) {
        place = put_one(place, out, list, p, bits);
        bits = bits_after(bits, p.id);
        at = p.at + p.len as usize;
    }
    place
}

// The added flags pair, if one is.
fn put_added_flags(place: Place, out: &mut [u8], plan: Plan) -> Place
    requires { place.at + cond plan.adds 8 0 ≤ length out.old }
    ensures { Wrote out.old out.new place.at result.at (pairs_bytes (cond plan.adds (pair_with flags_id (le32 plan.bits) ∷ []) [])) }
{
    if plan.adds {
        return put_flags(place, out, plan.bits);
    }
    place
}

// The added pairs and the end pair.
fn put_added(place: Place, out: &mut [u8], plan: Plan, added: &Added) -> Place
    requires { (length added.now.name.now ≤ 65535) × (length added.now.bindings.now ≤ 65535)
        × (place.at + length (list_bytes (added_pairs plan.adds plan.bits added.now.name.now added.now.bindings.now)) ≤ length out.old) }
    ensures { Wrote out.old out.new place.at result.at
        (list_bytes (added_pairs plan.adds plan.bits added.now.name.now added.now.bindings.now)) }
{
    let place = put_added_flags(place, out, plan);
    let place = put_pair(place, out, AvId::CHANNEL_BINDINGS, added.bindings);
    let place = put_pair(place, out, AvId::TARGET_NAME, added.name);
    put_end(place, out)
}

fn flags_size(adds: bool) -> usize
    ensures { (result ≡ cond adds 8 0) × (result ≤ 8) }
{
    if adds {
        return 8;
    }
    0
}

// The size of the whole list, as it is counted for check 30: with this size of the pairs that are kept, and whether a flags
// pair is added.
fn list_size(list: &[u8], size: usize, adds: bool, added: &Added) -> usize
    requires { size ≤ 65536 }
    ensures { result ≡ min 65536 (cond (eqb (length list.now) 0) 4 (size + (cond adds 8 0 + (12 + (length added.now.name.now + length added.now.bindings.now))))) }
{
    if list.len() == 0 {
        return 4;
    }
    let n = add_capped(size, flags_size(adds) + 12);
    add_capped(add_capped(n, added.name.len()), added.bindings.len())
}

// What the list for TargetInfo's bytes will be.
fn plan_for(list: &[u8], added: &Added) -> Plan
    requires { check_pairs list.now ≡ Ok tt }
    ensures bits { result.bits ≡ bits_due list.now added.now.name.now added.now.unverified }
    ensures adds { result.adds ≡ adds_flags result.bits (values_of list.now) }
    ensures size { result.size ≡ min 65536 (length (list_with result.bits list.now added.now.name.now added.now.bindings.now)) }
{
    let seen = look_over(list);
    let due = AvFlags::due(seen.timestamp, added.unverified & (added.name.len() != 0));
    let adds = (due.bits != 0) & !seen.flags;
    Plan {
        size: list_size(list, seen.size, adds, added),
        bits: due.bits,
        adds,
    }
}

// Checks 31, 30 and 33, for a list of so many bytes and an output of `room` bytes.
#[tactic(auto, using(wire::proofs::Laws::chain), unfolding(crate::specs::ResponsePairs::check_list))]
fn check_list(room: usize, name: &[u8], size: usize) -> Result<(), Refusal>
    ensures { result ≡ check_list room name.now size }
{
    let Checked::Held = check(name.len() % 2 == 0) else {
        return Err(Refusal::OddNameToWrite(2));
    };
    let Checked::Held = size_holds(size) else {
        return Err(Refusal::TooLongToWrite);
    };
    let Checked::Held = room_holds(size, room) else {
        return Err(Refusal::NoRoom);
    };
    Ok(())
}

// A list whose checks held, by its plan.
fn put_list(out: &mut [u8], list: &[u8], plan: Plan, added: &Added) -> Place
    requires { (check_pairs list.now ≡ Ok tt) × (plan.adds ≡ adds_flags plan.bits (values_of list.now))
        × (length (list_with plan.bits list.now added.now.name.now added.now.bindings.now) ≤ 65535)
        × (length (list_with plan.bits list.now added.now.name.now added.now.bindings.now) ≤ length out.old) }
    ensures { Wrote out.old out.new 0 result.at (list_with plan.bits list.now added.now.name.now added.now.bindings.now) }
{
    if list.len() == 0 {
        return put_end(Place { at: 0 }, out);
    }
    let place = put_kept(out, list, plan.bits);
    put_added(place, out, plan, added)
}

// Writes the list for TargetInfo's bytes: its length, or the refusal with the output as it was.
fn write_list(out: &mut [u8], list: &[u8], added: &Added) -> Result<usize, Refusal>
    requires { check_pairs list.now ≡ Ok tt }
    ensures answer { result ≡ list_answer (length out.old) list.now added.now.name.now added.now.unverified added.now.bindings.now }
    ensures content { out.new ≡ list_out out.old list.now added.now.name.now added.now.unverified added.now.bindings.now }
{
    let plan = plan_for(list, added);
    check_list(out.len(), added.name, plan.size)?;
    let end = put_list(out, list, plan, added);
    Ok(end.at)
}

// Writes the pair list that goes back for a challenge; refuses as reading does, and then by checks 31, 30 and 33.
pub fn write(
    out: &mut [u8],
    challenge: &[u8],
    target_name: &[u8],
    unverified: bool,
    bindings: &[u8; 16],
) -> Result<usize, Refusal>
    ensures answer { result ≡ write_answer (length out.old) challenge.now target_name.now unverified bindings.now }
    ensures content { out.new ≡ write_out out.old challenge.now target_name.now unverified bindings.now }
{
    let f = read_full(challenge)?;
    let info = f.challenge.fields.target_info.bytes(challenge);
    let added = Added {
        name: target_name,
        unverified,
        bindings,
    };
    write_list(out, info, &added)
}
