// The last word of the lines of NTLM messages, which marks the fields whose MaxLen is unlike Len, and the line's end.
#![tactic(auto)]

ghost use Rattle.std.specs.Prelude.{◌≡◌, map, length};
ghost use Rattle.std.specs.List.{enumerate_from};
ghost use Rattle.place.specs.Place.{Wrote};
ghost use Rattle.line_words.specs.Words.{Room};
ghost use Rattle.line_max.specs.Max.{max_digit, max_end};

use field::Field;
use place::Place;

// One that doesn't count has neither MaxLen nor Len.
#[tactic(auto, unfolding(crate::specs::Max::max_digit))]
fn digit(f: Field) -> u8
    ensures { result ≡ max_digit f }
{
    if f.max_len == f.len {
        return b'0';
    }
    b'1'
}

// The digit of each field, in the order given.
fn put_digits(p: Place, out: &mut [u8], fields: &[Field]) -> Place
    requires { Room p.at (map max_digit fields.now) (length out.old) }
    ensures { Wrote out.old out.new p.at result.at (map max_digit fields.now) }
{
    let mut p = p;
    for f in fields {
        p = p.put_u8(out, digit(*f));
    }
    p
}

// The end of the line of a message with these fields, which are given in field order.
pub fn put_max(p: Place, out: &mut [u8], fields: &[Field]) -> Place
    requires { Room p.at (max_end (enumerate_from 1 fields.now)) (length out.old) }
    ensures { Wrote out.old out.new p.at result.at (max_end (enumerate_from 1 fields.now)) }
{
    let p = p.put_bytes(out, b" max=");
    let p = put_digits(p, out, fields);
    p.put_u8(out, b'\n')
}
