// Writing a name without jumps, from text split at its full stops.
#![tactic(auto)]

ghost use Rattle.std.specs.Prelude.{◌≡◌, [], ◌∷◌, ◌++◌, ◌+◌, ◌≤◌, min, length};
ghost use Rattle.place.specs.Place.{Wrote};
ghost use Rattle.wire.specs.declared.check.Checked.TheVariants.{Held};
ghost use Rattle.write_dns_name.specs.Writing.{pieces, label_bytes, coded, name_bytes, labels_hold, text_holds, coded_holds};

use place::Place;
use place::written::add_capped;
use wire::check::{Checked, check};

// Check 50 at each piece of a text: 1 to 63 bytes.
fn pieces_hold(text: &[u8]) -> Checked
    ensures { result ≡ labels_hold (pieces text.now) }
{
    check(
        text.split(|b| *b == b'.')
            .all(|label| matches!(label.len(), 1..=63)),
    )
}

// Check 50.
#[tactic(auto, using(crate::proofs::Holding::holds_empty, crate::proofs::Holding::holds_some))]
pub fn text_holds(text: &[u8]) -> Checked
    ensures { result ≡ text_holds text.now }
{
    if text.is_empty() {
        return Checked::Held;
    }
    pieces_hold(text)
}

// Check 53: the coded length is two more than the text's, or one where that is empty.
#[tactic(auto, using(crate::proofs::Holding::short_enough))]
pub fn coded_holds(text: &[u8]) -> Checked
    ensures { result ≡ coded_holds text.now }
{
    check(text.len() <= 253)
}

// How many bytes the name of a text has, as lengths are counted for check 30.
#[tactic(auto, using(crate::proofs::Holding::size_empty, crate::proofs::Holding::size_some))]
pub fn coded_size(text: &[u8]) -> usize
    ensures { result ≡ min 65536 (length (name_bytes text.now)) }
{
    if text.is_empty() {
        return 1;
    }
    add_capped(2, text.len())
}

#[tactic(auto, using(place::proofs::Laws::and_then), unfolding(crate::specs::Writing::label_bytes))]
fn put_label(p: Place, out: &mut [u8], label: &[u8]) -> Place
    requires { (length label.now ≤ 63) × (p.at + length (label_bytes label.now) ≤ length out.old) }
    ensures { Wrote out.old out.new p.at result.at (label_bytes label.now) }
{
    let p = p.put_u8(out, label.len() as u8);
    p.put_bytes(out, label)
}

// The pieces of a text as labels, and the zero byte.
fn put_pieces(p: Place, out: &mut [u8], text: &[u8]) -> Place
    requires { (labels_hold (pieces text.now) ≡ Held) × (p.at + length (coded (pieces text.now)) ≤ length out.old) }
    ensures { Wrote out.old out.new p.at result.at (coded (pieces text.now)) }
{
    let mut p = p;
    for label in text.split(|b| *b == b'.') {
        p = put_label(p, out, label);
    }
    p.put_u8(out, 0)
}

// The name of a text for which 50 holds.
#[tactic(auto, using(crate::proofs::Holding::bytes_empty, crate::proofs::Holding::bytes_some, crate::proofs::Holding::pieces_held))]
pub fn put_name(p: Place, out: &mut [u8], text: &[u8]) -> Place
    requires { (text_holds text.now ≡ Held) × (p.at + length (name_bytes text.now) ≤ length out.old) }
    ensures { Wrote out.old out.new p.at result.at (name_bytes text.now) }
{
    if text.is_empty() {
        return p.put_u8(out, 0);
    }
    put_pieces(p, out, text)
}
