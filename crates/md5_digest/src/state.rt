// The digest of a message that comes in pieces: a state by value.
ghost use Rattle.std.specs.Prelude.{◌≡◌, ◌+◌, ◌≤◌, length};
ghost use Rattle.md5_digest.specs.Digest.{word_bytes, md5};
ghost use Rattle.md5_digest.specs.State.{fresh, taken, finished};

use crate::block::{Buffer, block_taken};
use wire::number::copy_items;

// The buffer after the whole blocks so far, the block that is being filled, and the count of all bytes taken.
#[derive(Clone, Copy)]
pub struct State {
    pub buffer: Buffer,
    pub tail: [u8; 64],
    pub count: u64,
}

// The buffer at the start (RFC 1321, section 3.3).
const START: Buffer = Buffer {
    a: 0x67452301,
    b: 0xEFCDAB89,
    c: 0x98BADCFE,
    d: 0x10325476,
};

impl State {
    #[tactic(auto, unfolding(crate::specs::Digest::start, crate::specs::State::fresh))]
    pub fn new() -> State
        ensures { (result.count ≡ 0) × (result ≡ fresh) }
    {
        State {
            buffer: START,
            tail: [0; 64],
            count: 0,
        }
    }

    // The state after a first block. By `update` it would take 216 bytes more of a small box's stack.
    pub fn of_block(m: &[u8]) -> State
        requires { length m.now ≡ 64 }
        ensures { (result.count ≡ 64) × (result ≡ taken fresh m.now) }
    {
        State {
            buffer: block_taken(START, m),
            tail: [0; 64],
            count: 64,
        }
    }

    // A piece of the message: what fills the block, the whole blocks from where they stand, and the rest. The state's parts are held
    // apart, so that on a small box's stack there is one block and no second state.
    // Not inlined: a copy of bytes that are known to be zeros, as those in place of a MIC, would want the C library's memset.
    #[inline(never)]
    pub fn update(self, m: &[u8]) -> State
        requires { self.count + length m.now ≤ 0x800000000000000 }
        ensures { (result.count ≡ self.count + length m.now) × (result ≡ taken self m.now) }
    {
        let at = (self.count % 64) as usize;
        let count = self.count + m.len() as u64;
        let mut buffer = self.buffer;
        let mut tail = self.tail;
        let Some((first, rest)) = m.split_at_checked(64 - at) else {
            copy_items(&mut tail[at..at + m.len()], m);
            return State {
                buffer,
                tail,
                count,
            };
        };
        if at == 0 {
            buffer = block_taken(buffer, first);
        } else {
            copy_items(&mut tail[at..], first);
            buffer = block_taken(buffer, &tail);
        }
        let (blocks, last) = rest.as_chunks::<64>();
        for block in blocks {
            buffer = block_taken(buffer, block);
        }
        tail = [0; 64];
        copy_items(&mut tail[..last.len()], last);
        State {
            buffer,
            tail,
            count,
        }
    }

    // The digest of all that was taken: a one bit, zero bits, and the length in bits at the end of a block, which is the next one where this one
    // has no room for it.
    pub fn finish(self) -> [u8; 16]
        requires { self.count + 128 ≤ 0x800000000000000 }
        ensures { result ≡ finished self }
    {
        let at = (self.count % 64) as usize;
        let mut buffer = self.buffer;
        let mut tail = self.tail;
        let mut bits = [0; 64];
        bits[0] = 0x80;
        copy_items(&mut tail[at..], &bits[..64 - at]);
        if 56 <= at {
            buffer = block_taken(buffer, &tail);
            tail = [0; 64];
        }
        copy_items(&mut tail[56..], &(8 * self.count).to_le_bytes());
        word_bytes(block_taken(buffer, &tail))
    }
}

// The four words, the low byte of each first.
fn word_bytes(p: Buffer) -> [u8; 16]
    ensures { result ≡ word_bytes p }
{
    let mut bytes = [0; 16];
    copy_items(&mut bytes[..4], &p.a.to_le_bytes());
    copy_items(&mut bytes[4..8], &p.b.to_le_bytes());
    copy_items(&mut bytes[8..12], &p.c.to_le_bytes());
    copy_items(&mut bytes[12..], &p.d.to_le_bytes());
    bytes
}

// The digest of a whole message.
pub fn digest(m: &[u8]) -> [u8; 16]
    requires { length m.now ≤ 0x400000000000000 }
    ensures { result ≡ md5 m.now }
{
    State::new().update(m).finish()
}
