// A name in a log line, unit by unit.
ghost use Rattle.std.specs.Prelude.{◌≡◌, ◌+◌, ◌-◌, ◌≤◌, length, ◌∷◌};
ghost use Rattle.std.specs.Iterator.{YieldsFirst, item_count};
ghost use Rattle.field.specs.Field.{field_bytes};
ghost use Rattle.place.specs.Place.{Wrote};
ghost use Rattle.line_words.specs.Digits.{hex};
ghost use Rattle.line_words.specs.Name.{plain, unit_text, units, name_text};

use crate::digits::put_hex;
use field::Field;
use place::Place;

// Whether a unit stands for itself.
fn is_plain(u: u16) -> bool
    ensures { result ≡ plain u }
{
    (0x21 <= u) & (u <= 0x7E) & (u != 0x5C)
}

// How many bytes a unit's text has.
pub fn unit_size(u: u16, unicode: bool) -> usize
    ensures { result ≡ length (unit_text unicode u) }
{
    if is_plain(u) {
        return 1;
    }
    if unicode {
        return 6;
    }
    4
}

// A backslash, a letter and so many hex digits.
pub fn put_escape(p: Place, out: &mut [u8], letter: u8, u: u16, k: usize) -> Place
    requires { p.at + (2 + k) ≤ length out.old }
    ensures { Wrote out.old out.new p.at result.at (0x5C ∷ letter ∷ hex k u) }
{
    let p = p.put_u8(out, b'\\');
    let p = p.put_u8(out, letter);
    let at = p.at;
    let digits = put_hex(&mut out[at..], u as u64, k);
    Place { at: at + digits.at }
}

// A unit's text.
pub fn put_unit(p: Place, out: &mut [u8], u: u16, unicode: bool) -> Place
    requires { p.at + length (unit_text unicode u) ≤ length out.old }
    ensures { Wrote out.old out.new p.at result.at (unit_text unicode u) }
{
    if is_plain(u) {
        return p.put_u8(out, u as u8);
    }
    if unicode {
        return put_escape(p, out, b'u', u, 4);
    }
    put_escape(p, out, b'x', u, 2)
}

// The units of a name: 16-bit numbers, the low byte first, or bytes. A last byte that is half a unit is left out.
#[derive(Clone, Copy)]
pub struct Units<'a> {
    pub bytes: &'a [u8],
    pub unicode: bool,
}

impl Iterator for Units<'_> {
    type Item = u16;

    ghost next_gives = { YieldsFirst (λ s. units s.unicode s.bytes.now) };

    ghost remaining = { item_count (λ s. units s.unicode s.bytes.now) };

    fn next(&mut self) -> Option<u16> {
        if self.unicode {
            let [low, high, rest @ ..] = self.bytes else {
                return None;
            };
            self.bytes = rest;
            return Some(u16::from(*low) + 256 * u16::from(*high));
        }
        let (first, rest) = self.bytes.split_first()?;
        self.bytes = rest;
        Some(u16::from(*first))
    }
}

impl Units<'_> {
    // What their text leaves of a room: nothing where it passes it, and the first unit that does is the last that is looked at.
    #[tactic(auto, unfolding(crate::specs::Name::text_of, crate::specs::Name::name_text))]
    pub fn room_after(self, room: usize) -> usize
        ensures { result ≡ room - length (name_text self.entry.unicode self.entry.bytes.now) }
    {
        let mut left = room;
        for u in self {
            let size = unit_size(u, self.unicode);
            if left < size {
                return 0;
            }
            left -= size;
        }
        left
    }

    // Their text, at the start of the output.
    #[tactic(auto, unfolding(crate::specs::Name::text_of, crate::specs::Name::name_text))]
    pub fn put(self, out: &mut [u8]) -> Place
        requires { length (name_text self.unicode self.bytes.now) ≤ length out.old }
        ensures { Wrote out.old out.new 0 result.at (name_text self.entry.unicode self.entry.bytes.now) }
    {
        let mut p = Place { at: 0 };
        for u in self {
            p = put_unit(p, out, u, self.unicode);
        }
        p
    }
}

// The names of a message: its bytes, and whether a name's units are 16-bit numbers.
#[derive(Clone, Copy)]
pub struct Names<'a> {
    pub msg: &'a [u8],
    pub unicode: bool,
}

impl<'a> Names<'a> {
    // The units of the name that a field holds.
    pub fn units(self, f: Field) -> Units<'a>
        ensures bytes { result.bytes.now ≡ field_bytes self.entry.msg.now f }
        ensures unicode { result.unicode ≡ self.entry.unicode }
    {
        Units {
            bytes: f.bytes(self.msg),
            unicode: self.unicode,
        }
    }
}
