// NL_AUTH_MESSAGE (MS-NRPC 2.2.1.3.1): reading.
#![tactic(auto)]

pub mod name;
pub mod string;

ghost use Rattle.std.specs.Prelude.{◌≡◌, ◌≤◌, length};
ghost use Rattle.read_nl_auth.specs.NlAuth.{flags_at, type_holds, end_holds, read_utf8, read_request, response_holds, read_response, read_nl_auth};

use crate::name::name_under;
use crate::string::{NlString, string_under};
use head::{fixed_part_holds, length_holds};
use nl_auth_flags::NlAuthFlags;
use wire::check::{Checked, check};
use wire::number::u32_at;
use wire::refusal::Refusal;

// Where the five strings stand, A to E. Empty at place 0: a string whose bit is clear, and every string of a response.
#[derive(Clone, Copy, Default)]
pub struct Strings {
    pub nb_domain: NlString,
    pub nb_computer: NlString,
    pub dns_domain: NlString,
    pub dns_host: NlString,
    pub utf8_computer: NlString,
}

#[derive(Clone, Copy)]
pub struct NlAuth {
    pub message_type: u32,
    pub flags: NlAuthFlags,
    pub strings: Strings,
}

impl NlAuth {
    pub const REQUEST: u32 = 0;

    pub const RESPONSE: u32 = 1;
}

fn flags_at(msg: &[u8]) -> NlAuthFlags
    requires { 8 ≤ length msg.now }
    ensures { result ≡ flags_at msg.now }
{
    let flags = NlAuthFlags {
        bits: u32_at(msg, 4),
    };
    flags.known()
}

// Check 4.
fn type_holds(message_type: u32) -> Checked
    ensures { result ≡ type_holds message_type }
{
    check((message_type == NlAuth::REQUEST) | (message_type == NlAuth::RESPONSE))
}

// Check 16.
fn end_holds(msg: &[u8], next: usize) -> Checked
    ensures { result ≡ end_holds next msg.now }
{
    check(next == msg.len())
}

// 15 and 50 to 53 for the UTF-8 strings, C to E, which start at `at` after those before them, then 16.
#[tactic(auto, unfolding(crate::specs::NlAuth::read_utf8))]
fn read_utf8(
    msg: &[u8],
    flags: NlAuthFlags,
    nb_domain: NlString,
    nb_computer: NlString,
    at: usize,
) -> Result<NlAuth, Refusal>
    requires { (8 ≤ at) × ((at ≤ length msg.now) × (length msg.now ≤ 65535)) }
    ensures { result ≡ read_utf8 flags msg.now nb_domain nb_computer at }
{
    let (dns_domain, at) = name_under(msg, at, flags.dns_domain(), 3)?;
    let (dns_host, at) = name_under(msg, at, flags.dns_host(), 4)?;
    let (utf8_computer, at) = name_under(msg, at, flags.utf8_computer(), 5)?;
    let Checked::Held = end_holds(msg, at) else {
        return Err(Refusal::BytesLeft);
    };
    Ok(NlAuth {
        message_type: NlAuth::REQUEST,
        flags,
        strings: Strings {
            nb_domain,
            nb_computer,
            dns_domain,
            dns_host,
            utf8_computer,
        },
    })
}

// Check 14, then 15 for the OEM strings, A and B.
#[tactic(auto, unfolding(crate::specs::NlAuth::read_request))]
fn read_request(msg: &[u8], flags: NlAuthFlags) -> Result<NlAuth, Refusal>
    requires { (8 ≤ length msg.now) × (length msg.now ≤ 65535) }
    ensures { result ≡ read_request flags msg.now }
{
    let Checked::Held = flags.strings_hold() else {
        return Err(Refusal::NoStrings);
    };
    let Some((nb_domain, at)) = string_under(msg, 8, flags.nb_domain()) else {
        return Err(Refusal::Unterminated(1));
    };
    let Some((nb_computer, at)) = string_under(msg, at, flags.nb_computer()) else {
        return Err(Refusal::Unterminated(2));
    };
    read_utf8(msg, flags, nb_domain, nb_computer, at)
}

// Check 17.
fn response_holds(msg: &[u8]) -> Checked
    ensures { result ≡ response_holds msg.now }
{
    check(msg.len() == 9 && msg[8] == 0)
}

// Check 17, and a response's empty answer.
#[tactic(auto, unfolding(crate::specs::NlAuth::read_response))]
fn read_response(msg: &[u8]) -> Result<NlAuth, Refusal>
    ensures { result ≡ read_response msg.now }
{
    let Checked::Held = response_holds(msg) else {
        return Err(Refusal::WrongResponse);
    };
    Ok(NlAuth {
        message_type: NlAuth::RESPONSE,
        flags: NlAuthFlags { bits: 0 },
        strings: Strings::default(),
    })
}

// Reads a message of any length: type, flags and the five strings' places, or the refusal.
#[tactic(auto, unfolding(crate::specs::NlAuth::read_nl_auth))]
pub fn read(msg: &[u8]) -> Result<NlAuth, Refusal>
    ensures { result ≡ read_nl_auth msg.now }
{
    let Checked::Held = length_holds(msg) else {
        return Err(Refusal::TooLong);
    };
    let Checked::Held = fixed_part_holds(msg, 8) else {
        return Err(Refusal::TooShort);
    };
    let message_type = u32_at(msg, 0);
    let Checked::Held = type_holds(message_type) else {
        return Err(Refusal::WrongType);
    };
    if message_type == NlAuth::REQUEST {
        return read_request(msg, flags_at(msg));
    }
    read_response(msg)
}
