// The words of a log line, each with its label.
ghost use Rattle.std.specs.Prelude.{◌≡◌, ◌+◌, ◌-◌, ◌*◌, leb, length};
ghost use Rattle.field.specs.Field.{field_bytes};
ghost use Rattle.place.specs.Place.{Wrote};
ghost use Rattle.line_words.specs.Words.{Room, number_word, name_word, flags_word, set_word, start_text};

use crate::digits::{decimal_size, put_decimal, put_hex};
use crate::name::Names;
use field::Field;
use negotiate_flags::NegotiateFlags;
use place::Place;
use place::written::room_after;

// What follows a label has a writer of its own, which is lent its part of the output. Lent by one function through a closure, each
// part would have to name its bytes for the proof.

// What a word leaves of a room: nothing where it passes it.
#[tactic(auto, using(crate::proofs::Rooms::leaves), unfolding(crate::specs::Words::number_word))]
pub fn room_after_number_word(room: usize, label: &[u8], n: u32) -> usize
    ensures { result ≡ room - length (number_word label.now n) }
{
    room_after(room_after(room, label.len()), decimal_size(n))
}

#[tactic(auto, using(crate::proofs::Rooms::parts), unfolding(crate::specs::Words::number_word))]
pub fn put_number_word(p: Place, out: &mut [u8], label: &[u8], n: u32) -> Place
    requires { Room p.at (number_word label.now n) (length out.old) }
    ensures { Wrote out.old out.new p.at result.at (number_word label.now n) }
{
    let p = p.put_bytes(out, label);
    let at = p.at;
    let number = put_decimal(&mut out[at..], n);
    Place { at: at + number.at }
}

#[tactic(auto, using(crate::proofs::Rooms::leaves), unfolding(crate::specs::Words::name_word))]
pub fn room_after_name_word(room: usize, label: &[u8], names: Names, f: Field) -> usize
    ensures { result ≡ room - length (name_word label.now names.entry.unicode (field_bytes names.entry.msg.now f)) }
{
    names.units(f).room_after(room_after(room, label.len()))
}

// Whether a line surely has room, with up to three names of these lengths and so many other bytes: a name's text has at most four
// bytes for each of the name's, so that it needn't be measured where this holds.
pub fn surely_fits(others: u16, a: u16, b: u16, c: u16, room: usize) -> bool
    ensures { result ≡ leb (others + 4 * (a + b + c)) room }
{
    others as usize + 4 * (a as usize + b as usize + c as usize) <= room
}

#[tactic(auto, using(crate::proofs::Rooms::parts), unfolding(crate::specs::Words::name_word))]
pub fn put_name_word(p: Place, out: &mut [u8], label: &[u8], names: Names, f: Field) -> Place
    requires { Room p.at (name_word label.now names.unicode (field_bytes names.msg.now f)) (length out.old) }
    ensures { Wrote out.old out.new p.at result.at (name_word label.now names.entry.unicode (field_bytes names.entry.msg.now f)) }
{
    let p = p.put_bytes(out, label);
    let at = p.at;
    let text = names.units(f).put(&mut out[at..]);
    Place { at: at + text.at }
}

#[tactic(auto, using(crate::proofs::Labels::flags_word_room), unfolding(crate::specs::Words::flags_word))]
pub fn put_flags_word(p: Place, out: &mut [u8], bits: u32) -> Place
    requires { Room p.at (flags_word bits) (length out.old) }
    ensures { Wrote out.old out.new p.at result.at (flags_word bits) }
{
    let p = p.put_bytes(out, b" flags=");
    let at = p.at;
    let digits = put_hex(&mut out[at..], bits as u64, 8);
    Place { at: at + digits.at }
}

#[tactic(auto, using(crate::proofs::Labels::set_room), unfolding(crate::specs::Words::set_word))]
fn put_set_word(p: Place, out: &mut [u8], unicode: bool) -> Place
    requires { Room p.at (set_word unicode) (length out.old) }
    ensures { Wrote out.old out.new p.at result.at (set_word unicode) }
{
    if unicode {
        return p.put_bytes(out, b" set=U");
    }
    p.put_bytes(out, b" set=O")
}

#[tactic(auto, using(crate::proofs::Rooms::parts3), unfolding(crate::specs::Words::start_text))]
pub fn put_start(out: &mut [u8], label: &[u8], flags: NegotiateFlags, unicode: bool) -> Place
    requires { Room 0 (start_text label.now flags unicode) (length out.old) }
    ensures { Wrote out.old out.new 0 result.at (start_text label.now flags unicode) }
{
    let p = Place { at: 0 };
    let p = p.put_bytes(out, label);
    let p = put_flags_word(p, out, flags.bits);
    put_set_word(p, out, unicode)
}
