// NEGOTIATE_MESSAGE (MS-NLMP 2.2.1.1): writing.
#![tactic(auto)]

ghost use Rattle.std.specs.Prelude.{◌≡◌, ◌++◌, ◌+◌, ◌≤◌, min, length};
ghost use Rattle.place.specs.Place.{Wrote};
ghost use Rattle.write_negotiate.specs.Writing.{flags_to_write, fields_to, after_type, fixed_bytes, negotiate_bytes, size_to_write, check_to_write, write_answer, write_out};

use negotiate_flags::NegotiateFlags;
use place::Place;
use place::written::{add_capped, room_holds, size_holds};
use read_negotiate::Fields;
use wire::check::Checked;
use wire::refusal::Refusal;
use write_field::{field_to, put_at, put_head, put_version};

// What a message is made of besides its flags: Version and both names' bytes, each as it is lent.
#[derive(Clone, Copy)]
pub struct Parts<'a> {
    pub version: &'a [u8; 8],
    pub domain: &'a [u8],
    pub workstation: &'a [u8],
}

// The message's length, as it is counted for check 30.
fn size_to_write(parts: &Parts) -> usize
    ensures { result ≡ min 65536 (size_to_write parts.now.domain.now parts.now.workstation.now) }
{
    add_capped(add_capped(40, parts.domain.len()), parts.workstation.len())
}

// Checks 5, 30 and 33, for an output of `room` bytes.
#[tactic(auto, using(crate::proofs::Sent::checks), unfolding(crate::specs::Writing::check_to_write))]
fn check_to_write(room: usize, flags: NegotiateFlags, parts: &Parts) -> Result<(), Refusal>
    ensures { result ≡ check_to_write room flags parts.now.domain.now parts.now.workstation.now }
{
    let Checked::Held = flags.charset_holds() else {
        return Err(Refusal::NoCharset);
    };
    let n = size_to_write(parts);
    let Checked::Held = size_holds(n) else {
        return Err(Refusal::TooLongToWrite);
    };
    let Checked::Held = room_holds(n, room) else {
        return Err(Refusal::NoRoom);
    };
    Ok(())
}

// A nonempty name sets its bit, an empty one clears it.
#[tactic(auto, unfolding(crate::specs::Writing::flags_to_write))]
fn flags_to_write(flags: NegotiateFlags, parts: &Parts) -> NegotiateFlags
    ensures { result ≡ flags_to_write flags parts.now.domain.now parts.now.workstation.now }
{
    let flags = flags.with_oem_domain_supplied(parts.domain.len() != 0);
    flags.with_oem_workstation_supplied(parts.workstation.len() != 0)
}

// Where the names stand.
#[tactic(auto, unfolding(crate::specs::Writing::fields_to))]
fn fields_to(parts: &Parts) -> Fields
    requires { 40 + (length parts.now.domain.now + length parts.now.workstation.now) ≤ 65535 }
    ensures { result ≡ fields_to (length parts.now.domain.now) (length parts.now.workstation.now) }
{
    let domain = parts.domain.len();
    Fields {
        domain: field_to(40, domain),
        workstation: field_to(40 + domain, parts.workstation.len()),
    }
}

// Flags, both heads and Version.
fn put_after_type(
    place: Place,
    out: &mut [u8],
    flags: NegotiateFlags,
    version: &[u8; 8],
    f: Fields,
) -> Place
    requires { place.at + 28 ≤ length out.old }
    ensures next { result.at ≡ place.at + 28 }
    ensures wrote { Wrote out.old out.new place.at result.at (after_type flags version.now f) }
{
    let place = place.put_u32(out, flags.bits);
    let place = put_head(place, out, f.domain);
    let place = put_head(place, out, f.workstation);
    put_version(place, out, flags, version)
}

// The fixed part, from the start of the output on.
fn put_fixed(out: &mut [u8], flags: NegotiateFlags, version: &[u8; 8], f: Fields) -> Place
    requires { 40 ≤ length out.old }
    ensures next { result.at ≡ 40 }
    ensures wrote { Wrote out.old out.new 0 result.at (fixed_bytes flags version.now f) }
{
    let place = Place { at: 0 }.put_bytes(out, b"NTLMSSP\0");
    let place = place.put_u32(out, 1);
    put_after_type(place, out, flags, version, f)
}

// The domain, and then the workstation.
fn put_payload(place: Place, out: &mut [u8], parts: &Parts) -> Place
    requires { place.at + (length parts.now.domain.now + length parts.now.workstation.now) ≤ length out.old }
    ensures { Wrote out.old out.new place.at result.at (parts.now.domain.now ++ parts.now.workstation.now) }
{
    let place = put_at(place, out, parts.domain);
    put_at(place, out, parts.workstation)
}

// A message whose checks held.
fn put_message(out: &mut [u8], flags: NegotiateFlags, parts: &Parts) -> Place
    requires { (40 + (length parts.now.domain.now + length parts.now.workstation.now) ≤ 65535)
        × (40 + (length parts.now.domain.now + length parts.now.workstation.now) ≤ length out.old) }
    ensures next { result.at ≡ size_to_write parts.now.domain.now parts.now.workstation.now }
    ensures wrote { Wrote out.old out.new 0 result.at
        (negotiate_bytes flags parts.now.version.now parts.now.domain.now parts.now.workstation.now) }
{
    let f = fields_to(parts);
    let flags = flags_to_write(flags, parts);
    let place = put_fixed(out, flags, parts.version, f);
    put_payload(place, out, parts)
}

// Writes a message of these parts, whose names are fields 1 and 2: its length, or the refusal with the output as it was.
pub fn write(out: &mut [u8], flags: NegotiateFlags, parts: &Parts) -> Result<usize, Refusal>
    ensures answer { result ≡ write_answer (length out.old) flags parts.now.version.now parts.now.domain.now parts.now.workstation.now }
    ensures content { out.new ≡ write_out out.old flags parts.now.version.now parts.now.domain.now parts.now.workstation.now }
{
    check_to_write(out.len(), flags, parts)?;
    let end = put_message(out, flags, parts);
    Ok(end.at)
}
