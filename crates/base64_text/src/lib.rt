// Base64 with padding (RFC 4648, section 4).
#![tactic(auto)]

ghost use Rattle.std.specs.Prelude.{◌≡◌, true, false, cond, [], ◌∷◌, ◌+◌, ◌≤◌, ◌<◌, length};
ghost use Rattle.place.specs.Place.{Wrote};
ghost use Rattle.base64_text.specs.Base64.{letter, three, two, one, encode, is_letter, value_of, group_holds, first_byte, second_byte, third_byte, group_bytes, is_base64, decode};

use place::Place;

// One of two numbers, without a jump: none may depend on a message's bytes (docs/TESTING.md), and such jumps can't be foreseen.
fn choose(first: bool, x: u8, y: u8) -> u8
    ensures { result ≡ cond first x y }
{
    if first { x } else { y }
}

// The character of a value, worked out: no table of them is kept.
#[tactic(auto, using(crate::proofs::Alphabet::worked_letter_is))]
fn letter(v: u8) -> u8
    requires { v < 64 }
    ensures { result ≡ letter v }
{
    let sign = choose(v == 62, b'+', b'/');
    let digit = choose(v < 62, (v + 60) % 64, sign);
    let small = choose(v < 52, v + 71, digit);
    choose(v < 26, v + b'A', small)
}

// Four characters. Not as an array: that goes as a number of 32 bits, and the compiler makes four groups at a time in place of sixteen.
fn put_four(p: Place, out: &mut [u8], w: u8, x: u8, y: u8, z: u8) -> Place
    requires { p.at + 4 ≤ length out.old }
    ensures { Wrote out.old out.new p.at result.at (w ∷ x ∷ y ∷ z ∷ []) }
{
    let at = p.at;
    out[at] = w;
    out[at + 1] = x;
    out[at + 2] = y;
    out[at + 3] = z;
    Place { at: at + 4 }
}

// The characters of three bytes.
#[tactic(auto, unfolding(crate::specs::Base64::three))]
fn put_three(p: Place, out: &mut [u8], a: u8, b: u8, c: u8) -> Place
    requires { p.at + 4 ≤ length out.old }
    ensures { Wrote out.old out.new p.at result.at (three a b c) }
{
    let w = letter(a / 4);
    let x = letter(a % 4 * 16 + b / 16);
    let y = letter(b % 16 * 4 + c / 64);
    let z = letter(c % 64);
    put_four(p, out, w, x, y, z)
}

// Of two bytes at the end.
#[tactic(auto, unfolding(crate::specs::Base64::two))]
fn put_two(p: Place, out: &mut [u8], a: u8, b: u8) -> Place
    requires { p.at + 4 ≤ length out.old }
    ensures { Wrote out.old out.new p.at result.at (two a b) }
{
    let w = letter(a / 4);
    let x = letter(a % 4 * 16 + b / 16);
    let y = letter(b % 16 * 4);
    put_four(p, out, w, x, y, b'=')
}

// Of one byte at the end.
#[tactic(auto, unfolding(crate::specs::Base64::one))]
fn put_one(p: Place, out: &mut [u8], a: u8) -> Place
    requires { p.at + 4 ≤ length out.old }
    ensures { Wrote out.old out.new p.at result.at (one a) }
{
    let w = letter(a / 4);
    let x = letter(a % 4 * 16);
    put_four(p, out, w, x, b'=', b'=')
}

// Writes a message as base64.
pub fn put_encoded(p: Place, out: &mut [u8], m: &[u8]) -> Place
    requires { p.at + length (encode m.now) ≤ length out.old }
    ensures { Wrote out.old out.new p.at result.at (encode m.now) }
{
    let mut q = p;
    let mut left = m;
    while let [a, b, c, rest @ ..] = left {
        q = put_three(q, out, *a, *b, *c);
        left = rest;
    }
    match *left {
        [a, b] => put_two(q, out, a, b),
        [a] => put_one(q, out, a),
        _ => q,
    }
}

// Whether a character is of the alphabet.
#[tactic(auto, using(crate::proofs::Bytes::is_tested))]
fn is_letter(c: u8) -> bool
    ensures { result ≡ is_letter c }
{
    c.is_ascii_alphanumeric() | (c == b'+') | (c == b'/')
}

// Its value there, 0 for one that is not of it.
#[tactic(auto, using(crate::proofs::Bytes::worked_is, crate::proofs::Alphabet::value_small))]
fn value_of(c: u8) -> u8
    ensures { (result ≡ value_of c) × (result < 64) }
{
    let low = c % 64;
    let slash = choose(c == b'/', 63, 0);
    let sign = choose(c == b'+', 62, slash);
    let digit = choose(c.is_ascii_digit(), (low + 4) % 64, sign);
    let small = choose(c.is_ascii_lowercase(), (low + 57) % 64, digit);
    choose(c.is_ascii_uppercase(), (low + 63) % 64, small)
}

// The value of a character that is of it. Capitals stand above the digits, small letters above both, and the signs below.
#[tactic(auto, using(crate::proofs::Alphabet::worked_few_is, crate::proofs::Alphabet::value_small))]
fn letter_value(c: u8) -> u8
    requires { is_letter c ≡ true }
    ensures { (result ≡ value_of c) × (result < 64) }
{
    let capital = choose(b'A' <= c, 63, 4);
    let shift = choose(b'a' <= c, 57, capital);
    choose(b'0' <= c, (c % 64 + shift) % 64, c / 4 + 52)
}

// Whether the last group stands for bytes, with the padding and the bits left over.
#[tactic(auto, unfolding(crate::specs::Base64::group_holds))]
fn last_holds(a: u8, b: u8, c: u8, d: u8) -> bool
    ensures { result ≡ group_holds true a b c d }
{
    is_letter(a)
        & is_letter(b)
        & ((is_letter(c) & is_letter(d))
            | (is_letter(c) & (d == b'=') & (value_of(c) % 4 == 0))
            | ((c == b'=') & (d == b'=') & (value_of(b) % 16 == 0)))
}

// Whether a text is in base64: groups of four, and letters alone before the last. With no early end, the compiler tests many at a time.
pub fn is_base64(t: &[u8]) -> bool
    ensures { result ≡ is_base64 t.now }
{
    let Some((front, &[a, b, c, d])) = t.split_last_chunk::<4>() else {
        return t.is_empty();
    };
    let mut ok = t.len() % 4 == 0;
    for x in front {
        ok &= is_letter(*x);
    }
    ok & last_holds(a, b, c, d)
}

// The bytes of a group, each by two of its four values.
fn first_byte(s: u8, t: u8) -> u8
    requires { (s < 64) × (t < 64) }
    ensures { result ≡ first_byte s t }
{
    s * 4 + t / 16
}

fn second_byte(t: u8, u: u8) -> u8
    requires { u < 64 }
    ensures { result ≡ second_byte t u }
{
    t % 16 * 16 + u / 4
}

fn third_byte(u: u8, v: u8) -> u8
    requires { v < 64 }
    ensures { result ≡ third_byte u v }
{
    u % 4 * 64 + v
}

// The bytes of a group before the last.
#[tactic(auto, using(crate::proofs::Writing::full), unfolding(crate::specs::Base64::group_holds))]
fn put_full(p: Place, out: &mut [u8], a: u8, b: u8, c: u8, d: u8) -> Place
    requires { (group_holds false a b c d ≡ true) × (p.at + length (group_bytes a b c d) ≤ length out.old) }
    ensures { Wrote out.old out.new p.at result.at (group_bytes a b c d) }
{
    let s = letter_value(a);
    let t = letter_value(b);
    let u = letter_value(c);
    let v = letter_value(d);
    p.put_bytes(
        out,
        &[first_byte(s, t), second_byte(t, u), third_byte(u, v)],
    )
}

// The bytes of the last group, by its padding.
#[tactic(auto, unfolding(crate::specs::Base64::group_bytes))]
fn put_last(p: Place, out: &mut [u8], a: u8, b: u8, c: u8, d: u8) -> Place
    requires { p.at + length (group_bytes a b c d) ≤ length out.old }
    ensures { Wrote out.old out.new p.at result.at (group_bytes a b c d) }
{
    let s = value_of(a);
    let t = value_of(b);
    let u = value_of(c);
    let v = value_of(d);
    let x = first_byte(s, t);
    if c == b'=' {
        return p.put_u8(out, x);
    }
    let y = second_byte(t, u);
    if d == b'=' {
        return p.put_bytes(out, &[x, y]);
    }
    p.put_bytes(out, &[x, y, third_byte(u, v)])
}

// Writes the bytes that a text in base64 stands for.
pub fn put_decoded(p: Place, out: &mut [u8], t: &[u8]) -> Place
    requires { (is_base64 t.now ≡ true) × (p.at + length (decode t.now) ≤ length out.old) }
    ensures { Wrote out.old out.new p.at result.at (decode t.now) }
{
    let Some((front, last)) = t.split_last_chunk::<4>() else {
        return p;
    };
    let mut q = p;
    let mut left = front;
    while let [a, b, c, d, rest @ ..] = left {
        q = put_full(q, out, *a, *b, *c, *d);
        left = rest;
    }
    let [a, b, c, d] = *last;
    put_last(q, out, a, b, c, d)
}

// How many bytes a text in base64 stands for: three for each group, without those that the last one's padding leaves out.
#[tactic(auto, using(crate::proofs::Size::sizes))]
pub fn decoded_size(t: &[u8]) -> usize
    requires { is_base64 t.now ≡ true }
    ensures { result ≡ length (decode t.now) }
{
    let n = t.len();
    if n < 4 {
        return 0;
    }
    let size = n / 4 * 3;
    if t[n - 2] == b'=' {
        return size - 2;
    }
    if t[n - 1] == b'=' {
        return size - 1;
    }
    size
}
