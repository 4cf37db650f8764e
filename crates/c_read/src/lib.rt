// The readings of the C interface: a number for the answer, and what was found in lent arrays.
#![tactic(auto)]

ghost use Rattle.std.specs.Prelude.{◌≡◌, length};
ghost use Rattle.c_read.specs.Numbers.{negotiate_numbers, authenticate_numbers, challenge_numbers, timestamp_numbers, server_names_numbers, nl_auth_numbers};
ghost use Rattle.c_read.specs.Numbers.{negotiate_outcome, authenticate_outcome_of, challenge_outcome_of, timestamp_outcome, server_names_outcome, nl_auth_outcome};
ghost use Rattle.read_authenticate.specs.Authenticate.{read_authenticate};
ghost use Rattle.read_challenge.specs.Challenge.{read_challenge, timestamp_of, server_names_of};
ghost use Rattle.read_negotiate.specs.Negotiate.{read_negotiate};
ghost use Rattle.read_nl_auth.specs.NlAuth.{read_nl_auth};
ghost use Rattle.c_number.specs.Number.{written_number};
ghost use Rattle.c_read.specs.FieldCopy.{field_copy_answer, field_copy_out};
ghost use Rattle.c_number.specs.Outcome.{call_number, call_out, two_array_number, two_array_out, two_array_bytes};

use c_number::{copy, hand_out, hand_out_beside, refusal_number, written_number};
use field::Field;
use read_authenticate::Authenticate;
use read_challenge::Challenge;
use read_negotiate::Negotiate;
use read_nl_auth::NlAuth;
use target_info::ServerNames;
use wire::check::Checked;
use wire::refusal::Refusal;

#[tactic(auto, unfolding(crate::specs::Numbers::negotiate_numbers))]
fn negotiate_numbers(m: Negotiate) -> [u64; 7]
    ensures { result ≡ negotiate_numbers m }
{
    let names = m.fields;
    [
        u64::from(m.flags.bits),
        u64::from(names.domain.offset),
        u64::from(names.domain.len),
        u64::from(names.workstation.offset),
        u64::from(names.workstation.len),
        u64::from(names.domain.max_len),
        u64::from(names.workstation.max_len),
    ]
}

#[tactic(auto, unfolding(crate::specs::Numbers::authenticate_numbers))]
fn authenticate_numbers(a: Authenticate) -> [u64; 20]
    ensures { result ≡ authenticate_numbers a }
{
    let f = a.fields;
    [
        u64::from(a.flags.bits),
        u64::from(a.mic_present),
        u64::from(f.lm.offset),
        u64::from(f.lm.len),
        u64::from(f.nt.offset),
        u64::from(f.nt.len),
        u64::from(f.domain.offset),
        u64::from(f.domain.len),
        u64::from(f.user.offset),
        u64::from(f.user.len),
        u64::from(f.workstation.offset),
        u64::from(f.workstation.len),
        u64::from(f.key.offset),
        u64::from(f.key.len),
        u64::from(f.lm.max_len),
        u64::from(f.nt.max_len),
        u64::from(f.domain.max_len),
        u64::from(f.user.max_len),
        u64::from(f.workstation.max_len),
        u64::from(f.key.max_len),
    ]
}

#[tactic(auto, unfolding(crate::specs::Numbers::challenge_numbers))]
fn challenge_numbers(c: Challenge) -> [u64; 7]
    ensures { result ≡ challenge_numbers c }
{
    let f = c.fields;
    [
        u64::from(c.flags.bits),
        u64::from(f.target_name.offset),
        u64::from(f.target_name.len),
        u64::from(f.target_info.offset),
        u64::from(f.target_info.len),
        u64::from(f.target_name.max_len),
        u64::from(f.target_info.max_len),
    ]
}

#[tactic(auto, unfolding(crate::specs::Numbers::timestamp_numbers))]
fn timestamp_numbers(timestamp: Option<u64>) -> [u64; 2]
    ensures { result ≡ timestamp_numbers timestamp }
{
    match timestamp {
        Some(t) => [1, t],
        None => [0, 0],
    }
}

#[tactic(auto, unfolding(crate::specs::Numbers::server_names_numbers))]
fn server_names_numbers(names: ServerNames) -> [u64; 2]
    ensures { result ≡ server_names_numbers names }
{
    [
        u64::from(names.nb_computer_name),
        u64::from(names.nb_domain_name),
    ]
}

#[tactic(auto, unfolding(crate::specs::Numbers::nl_auth_numbers))]
fn nl_auth_numbers(m: NlAuth) -> [u64; 15]
    ensures { result ≡ nl_auth_numbers m }
{
    let s = m.strings;
    [
        u64::from(m.message_type),
        u64::from(m.flags.bits),
        u64::from(s.nb_domain.offset),
        u64::from(s.nb_domain.len),
        u64::from(s.nb_computer.offset),
        u64::from(s.nb_computer.len),
        u64::from(s.dns_domain.offset),
        u64::from(s.dns_domain.len),
        u64::from(s.dns_host.offset),
        u64::from(s.dns_host.len),
        u64::from(s.utf8_computer.offset),
        u64::from(s.utf8_computer.len),
        u64::from(s.dns_domain.jumps),
        u64::from(s.dns_host.jumps),
        u64::from(s.utf8_computer.jumps),
    ]
}

// Reads NEGOTIATE.
pub fn read_negotiate(msg: &[u8], numbers: &mut [u64]) -> u64
    ensures answer { result ≡ call_number 7 (negotiate_outcome (read_negotiate msg.now)) (length numbers.old) }
    ensures content { numbers.new ≡ call_out 7 (negotiate_outcome (read_negotiate msg.now)) numbers.old }
{
    hand_out(
        numbers,
        7,
        || read_negotiate::read(msg).map(negotiate_numbers),
    )
}

// Reads AUTHENTICATE.
pub fn read_authenticate(msg: &[u8], numbers: &mut [u64], mic: &mut [u8]) -> u64
    ensures answer { result ≡ two_array_number 20 16 (authenticate_outcome_of msg.now) (length numbers.old) (length mic.old) }
    ensures content { numbers.new ≡ two_array_out 20 16 (authenticate_outcome_of msg.now) numbers.old (length mic.old) }
    ensures beside { mic.new ≡ two_array_bytes 20 16 (authenticate_outcome_of msg.now)
        (read_authenticate msg.now).mic (length numbers.old) mic.old }
{
    hand_out_beside(numbers, 20, mic, 16, || {
        let answer = read_authenticate::read(msg);
        let found = authenticate_numbers(answer.reading?);
        let bytes = answer.mic;
        Ok((found, bytes))
    })
}

// Reads CHALLENGE; `out` is for ServerChallenge.
pub fn read_challenge(msg: &[u8], numbers: &mut [u64], out: &mut [u8]) -> u64
    ensures answer { result ≡ two_array_number 7 8 (challenge_outcome_of msg.now) (length numbers.old) (length out.old) }
    ensures content { numbers.new ≡ two_array_out 7 8 (challenge_outcome_of msg.now) numbers.old (length out.old) }
    ensures beside { out.new ≡ two_array_bytes 7 8 (challenge_outcome_of msg.now)
        (read_challenge msg.now).server_challenge (length numbers.old) out.old }
{
    hand_out_beside(numbers, 7, out, 8, || {
        let answer = read_challenge::read(msg);
        let found = challenge_numbers(answer.reading?);
        let bytes = answer.server_challenge;
        Ok((found, bytes))
    })
}

// Reads a CHALLENGE for its first timestamp.
pub fn read_timestamp(msg: &[u8], numbers: &mut [u64]) -> u64
    ensures answer { result ≡ call_number 2 (timestamp_outcome (timestamp_of msg.now)) (length numbers.old) }
    ensures content { numbers.new ≡ call_out 2 (timestamp_outcome (timestamp_of msg.now)) numbers.old }
{
    hand_out(
        numbers,
        2,
        || read_challenge::read_timestamp(msg).map(timestamp_numbers),
    )
}

// Reads a CHALLENGE for whether pairs 1 and 2 are there.
pub fn read_server_names(msg: &[u8], numbers: &mut [u64]) -> u64
    ensures answer { result ≡ call_number 2 (server_names_outcome (server_names_of msg.now)) (length numbers.old) }
    ensures content { numbers.new ≡ call_out 2 (server_names_outcome (server_names_of msg.now)) numbers.old }
{
    hand_out(
        numbers,
        2,
        || read_challenge::read_server_names(msg).map(server_names_numbers),
    )
}

// Reads NL_AUTH.
pub fn read_nl_auth(msg: &[u8], numbers: &mut [u64]) -> u64
    ensures answer { result ≡ call_number 15 (nl_auth_outcome (read_nl_auth msg.now)) (length numbers.old) }
    ensures content { numbers.new ≡ call_out 15 (nl_auth_outcome (read_nl_auth msg.now)) numbers.old }
{
    hand_out(numbers, 15, || read_nl_auth::read(msg).map(nl_auth_numbers))
}

// Copies a field's own bytes; a nonempty one that ends past this message is no field of it.
#[tactic(auto, unfolding(crate::specs::FieldCopy::field_copy_answer, crate::specs::FieldCopy::field_copy_out))]
pub fn field_bytes(msg: &[u8], offset: u32, len: u16, out: &mut [u8]) -> u64
    ensures answer { result ≡ written_number (field_copy_answer msg.now (record { offset = offset; len = len; max_len = 0 }) out.old) }
    ensures content { out.new ≡ field_copy_out msg.now (record { offset = offset; len = len; max_len = 0 }) out.old }
{
    let f = Field {
        offset,
        len,
        max_len: 0,
    };
    let Checked::Held = f.ends_inside(msg.len() as u64) else {
        return refusal_number(Refusal::PastEnd(0));
    };
    written_number(copy(out, f.bytes(msg)))
}
