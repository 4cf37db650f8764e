// A block of 64 bytes is taken into the buffer: four rounds of sixteen steps (RFC 1321, section 3.4).
ghost use Rattle.std.specs.Prelude.{◌≡◌, ℕ, ◌+◌, ◌/◌, ◌%◌, ◌<◌, ◌≤◌, length, take, drop};
ghost use Rattle.md5_digest.specs.Block.{mixed, word_of, turns, step, round, added, block_taken};

use crate::words::{f, g, h, i, sine};
use wire::number::u32_at;

// The four-word buffer.
#[derive(Clone, Copy)]
pub struct Buffer {
    pub a: u32,
    pub b: u32,
    pub c: u32,
    pub d: u32,
}

// A step, from the value of its function, its word of the block, its entry of the table, and its rotation.
fn step(p: Buffer, m: u32, w: u32, t: u32, s: u32) -> Buffer
    requires { (0 < s) × (s < 32) }
    ensures { result ≡ step m w t s p }
{
    let sum = p.a.wrapping_add(m).wrapping_add(w.wrapping_add(t));
    Buffer {
        a: p.d,
        b: p.b.wrapping_add(sum.rotate_left(s)),
        c: p.b,
        d: p.c,
    }
}

// A round: its first step, its function, which word of the block each of its steps adds, and its four rotations, in turn.
fn round<F: Fn(u32, u32, u32) -> u32, W: Fn(usize) -> usize>(
    x: &[u8],
    p: Buffer,
    first: usize,
    mix: F,
    word: W,
    rotations: [u32; 4],
) -> Buffer
    requires whole { 64 ≤ length x.now }
    requires inside { (first % 16 ≡ 0) × (first < 64) }
    requires callable { F.IsAlwaysCallable mix }
    requires mixes { (n b c d r : ℕ) → first ≤ n → n < first + 16 → F.post mix b c d r → r ≡ mixed n b c d }
    requires chosen { (n : ℕ) → first ≤ n → n < first + 16 → W.pre word n }
    requires chooses { (n r : ℕ) → first ≤ n → n < first + 16 → W.post word n r → r ≡ word_of n }
    requires turned { rotations ≡ take 4 (drop (first / 4) turns) }
    ensures { result ≡ round x.now p first }
{
    let mut q = p;
    for n in first..first + 16 {
        let m = mix(q.b, q.c, q.d);
        let w = u32_at(x, 4 * word(n));
        q = step(q, m, w, sine(n), rotations[n % 4]);
    }
    q
}

#[tactic(auto, unfolding(crate::specs::Block::added))]
fn added(p: Buffer, q: Buffer) -> Buffer
    ensures { result ≡ added p q }
{
    Buffer {
        a: p.a.wrapping_add(q.a),
        b: p.b.wrapping_add(q.b),
        c: p.c.wrapping_add(q.c),
        d: p.d.wrapping_add(q.d),
    }
}

// The buffer after a block.
#[tactic(auto, unfolding(crate::specs::Block::turns, crate::specs::Block::block_taken))]
pub fn block_taken(p: Buffer, x: &[u8]) -> Buffer
    requires { 64 ≤ length x.now }
    ensures { result ≡ block_taken p x.now }
{
    let first = round(x, p, 0, f, |n| n, [7, 12, 17, 22]);
    let second = round(x, first, 16, g, |n| (5 * n + 1) % 16, [5, 9, 14, 20]);
    let third = round(x, second, 32, h, |n| (3 * n + 5) % 16, [4, 11, 16, 23]);
    let fourth = round(x, third, 48, i, |n| 7 * n % 16, [6, 10, 15, 21]);
    added(p, fourth)
}
