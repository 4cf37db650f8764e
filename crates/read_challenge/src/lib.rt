// CHALLENGE_MESSAGE (MS-NLMP 2.2.1.2): reading.
#![tactic(auto)]

ghost use Rattle.std.specs.Prelude.{◌≡◌, ◌≤◌, length};
ghost use Rattle.read_challenge.specs.Challenge.{fields_at, check_ends, check_begins, check_names, check_fields, fields_of, read_info, reading_of};
ghost use Rattle.read_challenge.specs.Challenge.{full_reading_of, server_challenge, read_challenge, timestamp_of, server_names_of};

use field::{Field, field_at};
use head::{Layout, read_head};
use negotiate_flags::NegotiateFlags;
use target_info::{Contents, ServerNames, read_list, server_names_in};
use wire::check::Checked;
use wire::number::fill;
use wire::refusal::Refusal;

// The two fields, in field order: 1 and 2.
#[derive(Clone, Copy)]
pub struct Fields {
    pub target_name: Field,
    pub target_info: Field,
}

#[derive(Clone, Copy)]
pub struct Challenge {
    pub flags: NegotiateFlags,
    pub fields: Fields,
}

// What reading answers; ServerChallenge's bytes are zeros where the message is refused.
#[derive(Clone, Copy)]
pub struct Answer {
    pub reading: Result<Challenge, Refusal>,
    pub server_challenge: [u8; 8],
}

// A challenge with what its TargetInfo holds.
#[derive(Clone, Copy)]
pub struct FullChallenge {
    pub challenge: Challenge,
    pub contents: Contents,
}

#[tactic(auto, using(crate::proofs::Laws::both))]
fn fields_at(msg: &[u8], flags: NegotiateFlags) -> Fields
    requires { 48 ≤ length msg.now }
    ensures { result ≡ fields_at msg.now flags }
{
    Fields {
        target_name: field_at(msg, 12, flags.request_target()),
        target_info: field_at(msg, 40, flags.target_info()),
    }
}

// Check 6, over both fields of a message of `n` bytes.
#[tactic(auto, using(wire::proofs::Laws::chain), unfolding(crate::specs::Challenge::check_ends))]
fn check_ends(f: Fields, n: u64) -> Result<(), Refusal>
    ensures { result ≡ check_ends n f }
{
    let Checked::Held = f.target_name.ends_inside(n) else {
        return Err(Refusal::PastEnd(1));
    };
    let Checked::Held = f.target_info.ends_inside(n) else {
        return Err(Refusal::PastEnd(2));
    };
    Ok(())
}

// Check 7, over both fields.
#[tactic(auto, using(wire::proofs::Laws::chain), unfolding(crate::specs::Challenge::check_begins))]
fn check_begins(f: Fields) -> Result<(), Refusal>
    ensures { result ≡ check_begins f }
{
    let Checked::Held = f.target_name.begins_after(48) else {
        return Err(Refusal::InFixedPart(1));
    };
    let Checked::Held = f.target_info.begins_after(48) else {
        return Err(Refusal::InFixedPart(2));
    };
    Ok(())
}

// Check 8: TargetName is the only name.
#[tactic(auto, using(wire::proofs::Laws::chain), unfolding(crate::specs::Challenge::check_names))]
fn check_names(f: Fields, unicode: bool) -> Result<(), Refusal>
    ensures { result ≡ check_names unicode f }
{
    let Checked::Held = f.target_name.even_name(unicode) else {
        return Err(Refusal::OddName(1));
    };
    Ok(())
}

// Checks 6 to 8 on the fields of a message of `n` bytes.
fn check_fields(f: Fields, unicode: bool, n: u64) -> Result<(), Refusal>
    ensures { result ≡ check_fields n unicode f }
{
    check_ends(f, n)?;
    check_begins(f)?;
    check_names(f, unicode)
}

// Checks 1 to 8. Only heads are looked at, whatever the message's length.
fn fields_of(msg: &[u8]) -> Result<Challenge, Refusal>
    ensures { result ≡ fields_of msg.now }
{
    let flags = read_head(
        msg,
        Layout {
            fixed: 48,
            message_type: 2,
            flags: 20,
        },
    )?;
    let fields = fields_at(msg, flags);
    check_fields(fields, flags.unicode(), msg.len() as u64)?;
    Ok(Challenge { flags, fields })
}

// Goes over TargetInfo's bytes once: checks 10 to 13, and what the list holds. The place of a refusal is the list's, and becomes
// the message's here.
#[tactic(auto, using(crate::proofs::Laws::info))]
fn read_info(msg: &[u8], c: Challenge) -> Result<Contents, Refusal>
    ensures { result ≡ read_info msg.now c }
{
    let list = c.fields.target_info;
    match read_list(list.bytes(msg)) {
        Ok(contents) => Ok(contents),
        Err(e) => Err(e.moved_by(list.offset as usize)),
    }
}

// Checks 1 to 8, then 10 to 13: the challenge and what its TargetInfo holds, or the refusal.
pub fn read_full(msg: &[u8]) -> Result<FullChallenge, Refusal>
    ensures { result ≡ full_reading_of msg.now }
{
    let challenge = fields_of(msg)?;
    let contents = read_info(msg, challenge)?;
    Ok(FullChallenge {
        challenge,
        contents,
    })
}

// The challenge alone.
fn reading_of(msg: &[u8]) -> Result<Challenge, Refusal>
    ensures { result ≡ reading_of msg.now }
{
    Ok(read_full(msg)?.challenge)
}

// The eight bytes at 24 of a message that was taken, zeros otherwise.
#[tactic(auto, using(crate::proofs::Laws::challenge_bytes))]
fn server_challenge(msg: &[u8], reading: Result<Challenge, Refusal>) -> [u8; 8]
    requires { reading ≡ reading_of msg.now }
    ensures { result ≡ server_challenge reading msg.now }
{
    let mut bytes = [0u8; 8];
    let Ok(_) = reading else {
        return bytes;
    };
    fill(&mut bytes, msg, 24);
    bytes
}

// Reads a message of any length: flags, ServerChallenge and both fields' places, or the refusal.
#[tactic(auto, using(crate::proofs::Laws::answered))]
pub fn read(msg: &[u8]) -> Answer
    ensures { result ≡ read_challenge msg.now }
{
    let reading = reading_of(msg);
    let server_challenge = server_challenge(msg, reading);
    Answer {
        reading,
        server_challenge,
    }
}

// The timestamp of a challenge as a number; refuses as reading does.
pub fn read_timestamp(msg: &[u8]) -> Result<Option<u64>, Refusal>
    ensures { result ≡ timestamp_of msg.now }
{
    Ok(read_full(msg)?.contents.timestamp)
}

// Whether a challenge holds pairs 1 and 2; refuses as reading does.
pub fn read_server_names(msg: &[u8]) -> Result<ServerNames, Refusal>
    ensures { result ≡ server_names_of msg.now }
{
    let c = reading_of(msg)?;
    Ok(server_names_in(c.fields.target_info.bytes(msg)))
}
