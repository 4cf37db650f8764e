// What every NTLM message that is written has: a field's head, Version, and a field's bytes in the payload.
#![tactic(auto)]

ghost use Rattle.std.specs.Prelude.{◌≡◌, ◌+◌, ◌≤◌, length};
ghost use Rattle.place.specs.Place.{Wrote};
ghost use Rattle.write_field.specs.Writing.{written_field, head_bytes, version_bytes};

use field::Field;
use negotiate_flags::NegotiateFlags;
use place::Place;

pub fn field_to(offset: usize, len: usize) -> Field
    requires { (offset ≤ 65535) × (len ≤ 65535) }
    ensures { result ≡ written_field offset len }
{
    Field {
        offset: offset as u32,
        len: len as u16,
        max_len: len as u16,
    }
}

// A field's head: MaxLen equals Len.
pub fn put_head(place: Place, out: &mut [u8], f: Field) -> Place
    requires { place.at + 8 ≤ length out.old }
    ensures next { result.at ≡ place.at + 8 }
    ensures wrote { Wrote out.old out.new place.at result.at (head_bytes f) }
{
    let max_len = place.put_u16(out, f.len);
    let offset = max_len.put_u16(out, f.len);
    offset.put_u32(out, f.offset)
}

// The caller's Version with VERSION, else zeros.
#[tactic(auto, unfolding(crate::specs::Writing::version_bytes))]
pub fn put_version(place: Place, out: &mut [u8], flags: NegotiateFlags, version: &[u8; 8]) -> Place
    requires { place.at + 8 ≤ length out.old }
    ensures next { result.at ≡ place.at + 8 }
    ensures wrote { Wrote out.old out.new place.at result.at (version_bytes flags version.now) }
{
    if flags.version() {
        return place.put_bytes(out, version);
    }
    place.put_bytes(out, &[0u8; 8])
}

// A field's bytes, from the start of the lent part on.
fn put_field(out: &mut [u8], bytes: &[u8]) -> Place
    requires { length bytes.now ≤ length out.old }
    ensures next { result.at ≡ length bytes.now }
    ensures wrote { Wrote out.old out.new 0 result.at bytes.now }
{
    Place { at: 0 }.put_bytes(out, bytes)
}

// A field at its place: its writer is lent the output from there on.
pub fn put_at(place: Place, out: &mut [u8], bytes: &[u8]) -> Place
    requires { place.at + length bytes.now ≤ length out.old }
    ensures { Wrote out.old out.new place.at result.at bytes.now }
{
    let at = place.at;
    let end = put_field(&mut out[at..], bytes);
    Place { at: at + end.at }
}
