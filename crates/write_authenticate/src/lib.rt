// AUTHENTICATE_MESSAGE (MS-NLMP 2.2.1.3): writing.
#![tactic(auto)]

ghost use Rattle.std.specs.Prelude.{◌≡◌, ◌++◌, ◌+◌, ◌≤◌, min, length};
ghost use Rattle.place.specs.Place.{Wrote};
ghost use Rattle.write_field.specs.Writing.{head_bytes};
ghost use Rattle.write_authenticate.specs.Writing.{fields_to, heads_bytes, after_heads, fixed_bytes, payload_bytes, payload_size, authenticate_bytes};
ghost use Rattle.write_authenticate.specs.Writing.{even_to_write, check_names_to_write, key_holds, size_to_write, check_to_write, write_answer, write_out};

use negotiate_flags::NegotiateFlags;
use place::Place;
use place::written::{add_capped, room_holds, size_holds};
use read_authenticate::Fields;
use wire::check::{Checked, check};
use wire::refusal::Refusal;
use write_field::{field_to, put_at, put_head, put_version};

// What a message is made of besides its flags: Version, MIC and the six fields' bytes, each as it is lent.
#[derive(Clone, Copy)]
pub struct Parts<'a> {
    pub version: &'a [u8; 8],
    pub mic: &'a [u8; 16],
    pub lm: &'a [u8],
    pub nt: &'a [u8],
    pub domain: &'a [u8],
    pub user: &'a [u8],
    pub workstation: &'a [u8],
    pub key: &'a [u8],
}

// Check 31 at one name.
fn even_name(unicode: bool, name: &[u8]) -> Checked
    ensures { result ≡ even_to_write unicode name.now }
{
    check(!unicode | (name.len() % 2 == 0))
}

// Check 31, over the names.
#[tactic(auto, using(wire::proofs::Laws::chain), unfolding(crate::specs::Writing::check_names_to_write))]
fn check_names(unicode: bool, parts: &Parts) -> Result<(), Refusal>
    ensures { result ≡ check_names_to_write unicode parts.now.domain.now parts.now.user.now parts.now.workstation.now }
{
    let Checked::Held = even_name(unicode, parts.domain) else {
        return Err(Refusal::OddNameToWrite(3));
    };
    let Checked::Held = even_name(unicode, parts.user) else {
        return Err(Refusal::OddNameToWrite(4));
    };
    let Checked::Held = even_name(unicode, parts.workstation) else {
        return Err(Refusal::OddNameToWrite(5));
    };
    Ok(())
}

// Check 32.
fn key_holds(flags: NegotiateFlags, key: &[u8]) -> Checked
    ensures { result ≡ key_holds flags key.now }
{
    check((key.len() == 0) | ((key.len() == 16) & flags.key_exch()))
}

// The message's length, as it is counted for check 30.
fn size_to_write(parts: &Parts) -> usize
    ensures { result ≡ min 65536 (size_to_write parts.now.lm.now parts.now.nt.now parts.now.domain.now parts.now.user.now parts.now.workstation.now parts.now.key.now) }
{
    let n = add_capped(88, parts.domain.len());
    let n = add_capped(n, parts.user.len());
    let n = add_capped(n, parts.workstation.len());
    let n = add_capped(n, parts.lm.len());
    let n = add_capped(n, parts.nt.len());
    add_capped(n, parts.key.len())
}

// Checks 5, 31, 32, 30 and 33, for an output of `room` bytes.
fn check_to_write(room: usize, flags: NegotiateFlags, parts: &Parts) -> Result<(), Refusal>
    ensures { result ≡ check_to_write room flags
        parts.now.lm.now parts.now.nt.now parts.now.domain.now parts.now.user.now parts.now.workstation.now parts.now.key.now }
{
    let Checked::Held = flags.charset_holds() else {
        return Err(Refusal::NoCharset);
    };
    check_names(flags.unicode(), parts)?;
    let Checked::Held = key_holds(flags, parts.key) else {
        return Err(Refusal::WrongKey);
    };
    let n = size_to_write(parts);
    let Checked::Held = size_holds(n) else {
        return Err(Refusal::TooLongToWrite);
    };
    let Checked::Held = room_holds(n, room) else {
        return Err(Refusal::NoRoom);
    };
    Ok(())
}

// Where the fields stand, in the order of the payload.
#[tactic(auto, unfolding(crate::specs::Writing::fields_to))]
fn fields_to(parts: &Parts) -> Fields
    requires { 88 + payload_size parts.now.lm.now parts.now.nt.now parts.now.domain.now parts.now.user.now parts.now.workstation.now parts.now.key.now ≤ 65535 }
    ensures { result ≡ fields_to (length parts.now.lm.now) (length parts.now.nt.now)
        (length parts.now.domain.now) (length parts.now.user.now) (length parts.now.workstation.now) (length parts.now.key.now) }
{
    let user_at = 88 + parts.domain.len();
    let workstation_at = user_at + parts.user.len();
    let lm_at = workstation_at + parts.workstation.len();
    let nt_at = lm_at + parts.lm.len();
    let key_at = nt_at + parts.nt.len();
    Fields {
        lm: field_to(lm_at, parts.lm.len()),
        nt: field_to(nt_at, parts.nt.len()),
        domain: field_to(88, parts.domain.len()),
        user: field_to(user_at, parts.user.len()),
        workstation: field_to(workstation_at, parts.workstation.len()),
        key: field_to(key_at, parts.key.len()),
    }
}

// The heads of fields 3 to 6.
fn put_later_heads(place: Place, out: &mut [u8], f: Fields) -> Place
    requires { place.at + 32 ≤ length out.old }
    ensures next { result.at ≡ place.at + 32 }
    ensures wrote { Wrote out.old out.new place.at result.at (head_bytes f.domain ++ (head_bytes f.user ++ (head_bytes f.workstation ++ head_bytes f.key))) }
{
    let place = put_head(place, out, f.domain);
    let place = put_head(place, out, f.user);
    let place = put_head(place, out, f.workstation);
    put_head(place, out, f.key)
}

// The six heads, in field order.
fn put_heads(place: Place, out: &mut [u8], f: Fields) -> Place
    requires { place.at + 48 ≤ length out.old }
    ensures next { result.at ≡ place.at + 48 }
    ensures wrote { Wrote out.old out.new place.at result.at (heads_bytes f) }
{
    let place = put_head(place, out, f.lm);
    let place = put_head(place, out, f.nt);
    put_later_heads(place, out, f)
}

// Flags, Version and MIC.
fn put_after_heads(place: Place, out: &mut [u8], flags: NegotiateFlags, parts: &Parts) -> Place
    requires { place.at + 28 ≤ length out.old }
    ensures next { result.at ≡ place.at + 28 }
    ensures wrote { Wrote out.old out.new place.at result.at (after_heads flags parts.now.version.now parts.now.mic.now) }
{
    let mic = parts.mic;
    let place = place.put_u32(out, flags.bits);
    let place = put_version(place, out, flags, parts.version);
    place.put_bytes(out, mic)
}

// The fixed part, from the start of the output on. Inlined, as `write` is.
#[inline(always)]
fn put_fixed(out: &mut [u8], flags: NegotiateFlags, parts: &Parts, f: Fields) -> Place
    requires { 88 ≤ length out.old }
    ensures next { result.at ≡ 88 }
    ensures wrote { Wrote out.old out.new 0 result.at (fixed_bytes flags parts.now.version.now parts.now.mic.now f) }
{
    let place = Place { at: 0 }.put_bytes(out, b"NTLMSSP\0");
    let place = place.put_u32(out, 3);
    let place = put_heads(place, out, f);
    put_after_heads(place, out, flags, parts)
}

// The secrets: LM response, NT response, key.
fn put_secrets(place: Place, out: &mut [u8], parts: &Parts) -> Place
    requires { place.at + (length parts.now.lm.now + (length parts.now.nt.now + length parts.now.key.now)) ≤ length out.old }
    ensures { Wrote out.old out.new place.at result.at (parts.now.lm.now ++ (parts.now.nt.now ++ parts.now.key.now)) }
{
    let place = put_at(place, out, parts.lm);
    let place = put_at(place, out, parts.nt);
    put_at(place, out, parts.key)
}

// The names, and then the secrets.
fn put_payload(place: Place, out: &mut [u8], parts: &Parts) -> Place
    requires { place.at + payload_size parts.now.lm.now parts.now.nt.now parts.now.domain.now parts.now.user.now parts.now.workstation.now parts.now.key.now ≤ length out.old }
    ensures { Wrote out.old out.new place.at result.at
        (payload_bytes parts.now.lm.now parts.now.nt.now parts.now.domain.now parts.now.user.now parts.now.workstation.now parts.now.key.now) }
{
    let place = put_at(place, out, parts.domain);
    let place = put_at(place, out, parts.user);
    let place = put_at(place, out, parts.workstation);
    put_secrets(place, out, parts)
}

// A message whose checks held.
fn put_message(out: &mut [u8], flags: NegotiateFlags, parts: &Parts) -> Place
    requires key_bound { 88 + payload_size parts.now.lm.now parts.now.nt.now parts.now.domain.now parts.now.user.now parts.now.workstation.now parts.now.key.now ≤ 65535 }
    requires key_in_bounds { 88 + payload_size parts.now.lm.now parts.now.nt.now parts.now.domain.now parts.now.user.now parts.now.workstation.now parts.now.key.now ≤ length out.old }
    ensures next { result.at ≡ size_to_write parts.now.lm.now parts.now.nt.now parts.now.domain.now parts.now.user.now parts.now.workstation.now parts.now.key.now }
    ensures wrote { Wrote out.old out.new 0 result.at (authenticate_bytes flags parts.now.version.now parts.now.mic.now
        parts.now.lm.now parts.now.nt.now parts.now.domain.now parts.now.user.now parts.now.workstation.now parts.now.key.now) }
{
    let place = put_fixed(out, flags, parts, fields_to(parts));
    put_payload(place, out, parts)
}

// Writes a message of these parts, fields 1 to 6 among them: its length, or the refusal with the output as it was. Inlined: what a caller
// lends in one struct would else be laid in memory first.
#[inline(always)]
pub fn write(out: &mut [u8], flags: NegotiateFlags, parts: &Parts) -> Result<usize, Refusal>
    ensures answer { result ≡ write_answer (length out.old) flags parts.now.version.now parts.now.mic.now
        parts.now.lm.now parts.now.nt.now parts.now.domain.now parts.now.user.now parts.now.workstation.now parts.now.key.now }
    ensures content { out.new ≡ write_out out.old flags parts.now.version.now parts.now.mic.now
        parts.now.lm.now parts.now.nt.now parts.now.domain.now parts.now.user.now parts.now.workstation.now parts.now.key.now }
{
    check_to_write(out.len(), flags, parts)?;
    let end = put_message(out, flags, parts);
    Ok(end.at)
}
