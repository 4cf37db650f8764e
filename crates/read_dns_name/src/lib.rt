// A name in a buffer as RFC 1035 section 4.1.4 codes it: labels after a length byte, ended by a zero byte or by a jump.
#![tactic(auto)]

ghost use Rattle.std.specs.Prelude.{◌≡◌, ◌+◌, ◌≤◌, ◌<◌, ◌^◌, length};
ghost use Rattle.read_dns_name.specs.DnsName.{begin, past_label, jumped, ended, jump_place, label_of, jump_to, jump_at, step_at, read_name};

use wire::check::{Checked, check};

// Where the reading of a name has come to. Places are counted from the first byte of the buffer.
#[derive(Clone, Copy)]
pub struct Cursor {
    pub at: usize,
    // The first byte of the run of labels that is being read.
    pub run: usize,
    pub jumps: usize,
    // The coded length of the labels passed: one more than the sum of each one's length plus one.
    pub coded: usize,
    // After the first jump, the place behind it.
    pub next: usize,
}

// Why a name is refused: 15, 50, 51, 52 and 53.
#[derive(Clone, Copy)]
pub enum Fault {
    CutShort,
    WrongTopBits,
    PlaceNotBefore,
    TooManyJumps,
    NameTooLong,
}

// What stands at the cursor: a label of so many bytes, a jump to a place, the zero byte, or a fault.
#[derive(Clone, Copy)]
pub enum Step {
    Label(usize),
    Jump(usize),
    End,
}

// A name that was read: the jumps taken, and the place where the next string starts.
#[derive(Clone, Copy)]
pub struct Name {
    pub jumps: usize,
    pub next: usize,
}

impl Cursor {
    pub fn begin(start: usize) -> Cursor
        ensures { result ≡ begin start }
    {
        Cursor {
            at: start,
            run: start,
            jumps: 0,
            coded: 1,
            next: 0,
        }
    }

    pub fn past_label(self, n: usize) -> Cursor
        requires { (self.at + 1 + n < 2 ^ 64) × (self.coded + 1 + n < 2 ^ 64) }
        ensures { result ≡ past_label self n }
    {
        Cursor {
            at: self.at + 1 + n,
            run: self.run,
            jumps: self.jumps,
            coded: self.coded + 1 + n,
            next: self.next,
        }
    }

    pub fn jumped(self, to: usize) -> Cursor
        requires { (self.at + 2 < 2 ^ 64) × (self.jumps + 1 < 2 ^ 64) }
        ensures { result ≡ jumped self to }
    {
        let next = match self.jumps {
            0 => self.at + 2,
            _ => self.next,
        };
        Cursor {
            at: to,
            run: to,
            jumps: self.jumps + 1,
            coded: self.coded,
            next,
        }
    }

    // The name whose zero byte is at the cursor.
    pub fn ended(self) -> Name
        requires { self.at + 1 < 2 ^ 64 }
        ensures { result ≡ ended self }
    {
        let next = match self.jumps {
            0 => self.at + 1,
            _ => self.next,
        };
        Name {
            jumps: self.jumps,
            next,
        }
    }
}

// The place in the other 14 bits of a jump.
fn jump_place(high: u8, low: u8) -> usize
    ensures { result ≡ jump_place high low }
{
    256 * (usize::from(high) % 64) + usize::from(low)
}

// 15 and 53 for a label of n bytes.
#[tactic(auto, unfolding(crate::specs::DnsName::label_of))]
fn label_of(c: Cursor, n: usize, left: usize) -> Result<Step, Fault>
    requires { (c.coded ≤ 255) × (n < 256) }
    ensures { result ≡ label_of c n left }
{
    let Checked::Held = check(1 + n <= left) else {
        return Err(Fault::CutShort);
    };
    let Checked::Held = check(c.coded + 1 + n <= 255) else {
        return Err(Fault::NameTooLong);
    };
    Ok(Step::Label(n))
}

// 51 and 52 for a jump.
#[tactic(auto, unfolding(crate::specs::DnsName::jump_to))]
fn jump_to(c: Cursor, to: usize) -> Result<Step, Fault>
    ensures { result ≡ jump_to c to }
{
    let Checked::Held = check(to < c.run) else {
        return Err(Fault::PlaceNotBefore);
    };
    let Checked::Held = check(c.jumps < 16) else {
        return Err(Fault::TooManyJumps);
    };
    Ok(Step::Jump(to))
}

// 15 for a jump, then 51 and 52.
#[tactic(auto, unfolding(crate::specs::DnsName::jump_at, crate::specs::DnsName::left))]
fn jump_at(buf: &[u8], c: Cursor) -> Result<Step, Fault>
    requires { c.at < length buf.now }
    ensures { result ≡ jump_at buf.now c }
{
    let Checked::Held = check(2 <= buf.len().saturating_sub(c.at)) else {
        return Err(Fault::CutShort);
    };
    jump_to(c, jump_place(buf[c.at], buf[c.at + 1]))
}

// What stands at the cursor.
#[tactic(auto, unfolding(crate::specs::DnsName::step_at, crate::specs::DnsName::left))]
pub fn step_at(buf: &[u8], c: Cursor) -> Result<Step, Fault>
    requires { c.coded ≤ 255 }
    ensures { result ≡ step_at buf.now c }
{
    let left = buf.len().saturating_sub(c.at);
    let Checked::Held = check(1 <= left) else {
        return Err(Fault::CutShort);
    };
    let b = buf[c.at];
    if b == 0 {
        return Ok(Step::End);
    }
    if b < 64 {
        return label_of(c, usize::from(b), left);
    }
    if b < 192 {
        return Err(Fault::WrongTopBits);
    }
    jump_at(buf, c)
}

// Reads the name that starts at a place.
pub fn read_name(buf: &[u8], start: usize) -> Result<Name, Fault>
    ensures { result ≡ read_name buf.now start }
{
    let mut c = Cursor::begin(start);
    loop {
        match step_at(buf, c)? {
            Step::Label(n) => c = c.past_label(n),
            Step::Jump(to) => c = c.jumped(to),
            Step::End => return Ok(c.ended()),
        }
    }
}
