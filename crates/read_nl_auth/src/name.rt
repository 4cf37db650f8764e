// Strings C, D and E: names by RFC 1035 in the buffer, which starts at byte 8 of the message.
ghost use Rattle.std.specs.Prelude.{◌≡◌, ◌≤◌, min, length};
ghost use Rattle.field.specs.Field.{PartAt};
ghost use Rattle.read_nl_auth.specs.NlAuth.{buffer_of, in_buffer, refusal_in, name_at, name_under};

use crate::string::NlString;
use read_dns_name::{Fault, read_name};
use wire::refusal::Refusal;

// The buffer of a message; of one that is too short for it, the empty part at its end.
pub fn buffer(msg: &[u8]) -> &[u8]
    ensures content { result.now ≡ buffer_of msg.now }
    ensures place { PartAt result.ref_ptr msg.entry.ref_ptr (min 8 (length msg.now)) }
{
    let start = msg.len().min(8);
    &msg[start..]
}

// A place of the message, counted from the first byte of the buffer; 0 for one before it.
pub fn in_buffer(at: u32) -> usize
    ensures { result ≡ in_buffer at }
{
    (at as usize).saturating_sub(8)
}

// 15 and 50 to 53 at string `n`.
fn refusal_in(e: Fault, n: u8) -> Refusal
    ensures { result ≡ refusal_in e n }
{
    match e {
        Fault::CutShort => Refusal::Unterminated(n),
        Fault::WrongTopBits => Refusal::WrongLabel(n),
        Fault::PlaceNotBefore => Refusal::PlaceNotBefore(n),
        Fault::TooManyJumps => Refusal::TooManyJumps(n),
        Fault::NameTooLong => Refusal::NameTooLong(n),
    }
}

// String `n`, whose name starts at `at`.
fn name_at(msg: &[u8], at: usize, n: u8) -> Result<(NlString, usize), Refusal>
    requires { (8 ≤ at) × ((at ≤ length msg.now) × (length msg.now ≤ 65535)) }
    ensures { result ≡ name_at msg.now at n }
{
    let m = read_name(&msg[8..], at - 8).map_err(|e| refusal_in(e, n))?;
    let end = 8 + m.next;
    let string = NlString {
        offset: at as u32,
        len: (end - at) as u16,
        jumps: m.jumps as u8,
    };
    Ok((string, end))
}

// The string `n` of a bit, which stands at `at` if the bit is set.
#[tactic(auto, unfolding(crate::specs::NlAuth::name_under))]
pub(crate) fn name_under(
    msg: &[u8],
    at: usize,
    set: bool,
    n: u8,
) -> Result<(NlString, usize), Refusal>
    requires { (8 ≤ at) × ((at ≤ length msg.now) × (length msg.now ≤ 65535)) }
    ensures { result ≡ name_under set msg.now at n }
{
    if set {
        return name_at(msg, at, n);
    }
    Ok((NlString::default(), at))
}
