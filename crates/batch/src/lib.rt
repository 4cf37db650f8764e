// A night's messages in one buffer: each place of a lent list is read as the kind that it is marked as, and has its answer filled
// in.
#![tactic(auto)]

ghost use Rattle.std.specs.Prelude.{◌≡◌, ◌<◌, ◌^◌};
ghost use Rattle.verdict.specs.Verdict.{refused_place};
ghost use Rattle.batch.specs.Batch.{answer_of, place_inside, read_marked, verdict_of, answer_to, buffer_verdict, filled};

use head::{Kind, length_holds};
use verdict::read_as;
use wire::check::{Checked, check};
use wire::refusal::Refusal;

// A message's answer: the refusal's number, field and pair place, all 0 if it is taken. Numbers, as C reads them.
#[repr(C)]
#[derive(Clone, Copy, Default)]
pub struct Answer {
    pub number: u32,
    pub field: u32,
    pub place: u32,
}

// An entry of a list: where a message stands in the buffer, the mark of the kind that it is read as, and room for its answer.
#[repr(C)]
#[derive(Clone, Copy)]
pub struct Entry {
    pub start: u64,
    pub length: u64,
    // A number, since C fills it: any may stand here.
    pub mark: u32,
    pub answer: Answer,
}

// The marks; any other number is no kind's.
impl Entry {
    pub const NEGOTIATE: u32 = 1;

    pub const CHALLENGE: u32 = 2;

    pub const AUTHENTICATE: u32 = 3;
}

// ---- one message

// The refusal's numbers, all 0 where there is none.
#[tactic(auto, using(crate::proofs::Laws::answers))]
fn answer_of(v: Result<(), Refusal>) -> Answer
    requires { refused_place v < 2 ^ 32 }
    ensures { result ≡ answer_of v }
{
    match v {
        Ok(()) => Answer::default(),
        Err(e) => Answer {
            number: u32::from(e.number()),
            field: u32::from(e.field()),
            place: e.place() as u32,
        },
    }
}

// A message read as the kind of a mark, whatever its own type says; a mark that is no kind's gets 4.
fn read_marked(mark: u32, msg: &[u8]) -> Result<(), Refusal>
    ensures { result ≡ read_marked mark msg.now }
{
    let kind = Kind::try_from(mark)?;
    read_as(kind, msg)
}

// ---- a place in a buffer

// Check 54, for a buffer of `n` bytes. No sum is taken, so that none can wrap.
#[tactic(auto, using(crate::proofs::Laws::places))]
fn place_inside(n: u64, start: u64, length: u64) -> Checked
    ensures { result ≡ place_inside n start length }
{
    if n < length {
        return Checked::Failed;
    }
    check(start <= n - length)
}

// The verdict of an entry's message.
#[tactic(auto, using(crate::proofs::Laws::verdicts))]
fn verdict_of(buffer: &[u8], e: Entry) -> Result<(), Refusal>
    ensures { result ≡ verdict_of buffer.now e }
{
    let Checked::Held = place_inside(buffer.len() as u64, e.start, e.length) else {
        return Err(Refusal::PlaceOutside);
    };
    let at = e.start as usize;
    let end = at + e.length as usize;
    read_marked(e.mark, &buffer[at..end])
}

#[tactic(auto, using(crate::proofs::Laws::answered))]
fn answer_to(buffer: &[u8], e: Entry) -> Answer
    ensures { result ≡ answer_to buffer.now e }
{
    answer_of(verdict_of(buffer, e))
}

// ---- the list

// Fills each entry's answer; a buffer over 65,535 bytes is refused, and no entry changes.
#[tactic(auto, using(wire::proofs::Laws::chain))]
pub fn check_messages(buffer: &[u8], list: &mut [Entry]) -> Result<(), Refusal>
    ensures answer { result ≡ buffer_verdict buffer.now }
    ensures content { list.new ≡ filled buffer.now list.old }
{
    let Checked::Held = length_holds(buffer) else {
        return Err(Refusal::TooLong);
    };
    for e in list.iter_mut() {
        e.answer = answer_to(buffer, *e);
    }
    Ok(())
}
