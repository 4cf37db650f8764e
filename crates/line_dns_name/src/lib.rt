// The text of a name in a line. The name is walked over a second time; at a fault it ends.
#![tactic(auto)]

ghost use Rattle.std.specs.Prelude.{◌≡◌, ◌+◌, ◌*◌, ◌≤◌, length};
ghost use Rattle.place.specs.Place.{Wrote};
ghost use Rattle.read_dns_name.specs.DnsName.{labels_at};
ghost use Rattle.line_dns_name.specs.DnsNameText.{byte_text, label_text, part_text, dns_name_text};

use line_words::name::{put_escape, put_unit, unit_size};
use place::Place;
use read_dns_name::{Cursor, Step, step_at};

fn byte_size(b: u8) -> usize
    ensures { (result ≡ length (byte_text b)) × (result ≤ 4) }
{
    if b == b'.' {
        return 4;
    }
    unit_size(u16::from(b), false)
}

fn put_byte(p: Place, out: &mut [u8], b: u8) -> Place
    requires { p.at + length (byte_text b) ≤ length out.old }
    ensures { Wrote out.old out.new p.at result.at (byte_text b) }
{
    if b == b'.' {
        return put_escape(p, out, b'x', u16::from(b), 2);
    }
    put_unit(p, out, u16::from(b), false)
}

#[tactic(auto, unfolding(crate::specs::DnsNameText::label_text))]
fn label_size(label: &[u8]) -> usize
    requires { length label.now ≤ 255 }
    ensures { (result ≡ length (label_text label.now)) × (result ≤ 4 * length label.now) }
{
    let mut size = 0;
    for &b in label {
        size += byte_size(b);
    }
    size
}

#[tactic(auto, unfolding(crate::specs::DnsNameText::label_text))]
fn put_label(p: Place, out: &mut [u8], label: &[u8]) -> Place
    requires { p.at + length (label_text label.now) ≤ length out.old }
    ensures { Wrote out.old out.new p.at result.at (label_text label.now) }
{
    let mut q = p;
    for &b in label {
        q = put_byte(q, out, b);
    }
    q
}

fn part_size(label: &[u8], first: bool) -> usize
    requires { length label.now ≤ 255 }
    ensures { (result ≡ length (part_text first label.now)) × (result ≤ 4 * length label.now + 1) }
{
    let size = label_size(label);
    if first {
        return size;
    }
    1 + size
}

fn put_part(p: Place, out: &mut [u8], label: &[u8], first: bool) -> Place
    requires { p.at + length (part_text first label.now) ≤ length out.old }
    ensures { Wrote out.old out.new p.at result.at (part_text first label.now) }
{
    if first {
        return put_label(p, out, label);
    }
    let p = p.put_u8(out, b'.');
    put_label(p, out, label)
}

// How many bytes the text of the name at a place has.
pub fn name_size(buf: &[u8], start: usize) -> usize
    ensures { (result ≡ length (dns_name_text (labels_at buf.now start))) × (result ≤ 4 * 255) }
{
    let mut c = Cursor::begin(start);
    let mut first = true;
    let mut size: usize = 0;
    while let Ok(step) = step_at(buf, c) {
        match step {
            Step::Label(n) => {
                let from = c.at + 1;
                let to = from + n;
                size += part_size(&buf[from..to], first);
                first = false;
                c = c.past_label(n);
            }
            Step::Jump(to) => c = c.jumped(to),
            Step::End => return size,
        }
    }
    size
}

// The text of the name at a place, from `p` on.
pub fn put_name(p: Place, out: &mut [u8], buf: &[u8], start: usize) -> Place
    requires { p.at + length (dns_name_text (labels_at buf.now start)) ≤ length out.old }
    ensures { Wrote out.old out.new p.at result.at (dns_name_text (labels_at buf.now start)) }
{
    let mut c = Cursor::begin(start);
    let mut first = true;
    let mut q = p;
    while let Ok(step) = step_at(buf, c) {
        match step {
            Step::Label(n) => {
                let from = c.at + 1;
                let to = from + n;
                q = put_part(q, out, &buf[from..to], first);
                first = false;
                c = c.past_label(n);
            }
            Step::Jump(to) => c = c.jumped(to),
            Step::End => return q,
        }
    }
    q
}
