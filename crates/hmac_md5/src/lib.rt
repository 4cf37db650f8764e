// HMAC-MD5 (RFC 2104) of a text that comes in pieces: `begin` gives the state of the inner digest, its `update` takes a piece, `end` gives the HMAC.
#![tactic(auto)]

ghost use Rattle.std.specs.Prelude.{◌≡◌, ◌+◌, ◌≤◌, length};
ghost use Rattle.md5_digest.specs.State.{fresh, taken};
ghost use Rattle.hmac_md5.specs.Hmac.{key_block, xored, begun, hmac_finished, hmac};

use md5_digest::state::{State, digest};
use wire::number::copy_items;

// A digest's state after the block of a key of at most 64 bytes, each byte XOR x. Keys stay slices with a bound: docs/changes/10-mic.md names
// `begin` and `end`, and a struct of a short key would be made in each of them.
fn padded(key: &[u8], x: u8) -> State
    requires { length key.now ≤ 64 }
    ensures { (result.count ≡ 64) × (result ≡ taken fresh (xored x (key_block key.now))) }
{
    let mut block = [0; 64];
    copy_items(&mut block[..key.len()], key);
    for byte in block.iter_mut() {
        *byte ^= x;
    }
    State::of_block(&block)
}

// The state of the inner digest, before the first piece of the text. A key that is longer than a block is digested before: `mac` does it.
#[tactic(auto, unfolding(crate::specs::Hmac::begun))]
pub fn begin(key: &[u8]) -> State
    requires { length key.now ≤ 64 }
    ensures { (result.count ≡ 64) × (result ≡ begun key.now) }
{
    padded(key, 0x36)
}

// The HMAC, from the state of the inner digest after the last piece.
#[tactic(auto, unfolding(crate::specs::Hmac::hmac_finished))]
pub fn end(key: &[u8], s: State) -> [u8; 16]
    requires { (length key.now ≤ 64) × (s.count + 128 ≤ 0x800000000000000) }
    ensures { result ≡ hmac_finished key.now s }
{
    padded(key, 0x5C).update(&s.finish()).finish()
}

// The HMAC of a whole text, with a key of at most 64 bytes.
#[tactic(auto, using(crate::proofs::Laws::is_hmac))]
fn short_mac(key: &[u8], text: &[u8]) -> [u8; 16]
    requires { (length key.now ≤ 64) × (length text.now ≤ 0x400000000000000) }
    ensures { result ≡ hmac key.now text.now }
{
    end(key, begin(key).update(text))
}

// The HMAC of a whole text, with any key.
#[tactic(auto, using(crate::proofs::Laws::of_long))]
pub fn mac(key: &[u8], text: &[u8]) -> [u8; 16]
    requires { (length key.now ≤ 0x400000000000000) × (length text.now ≤ 0x400000000000000) }
    ensures { result ≡ hmac key.now text.now }
{
    if 64 < key.len() {
        return short_mac(&digest(key), text);
    }
    short_mac(key, text)
}
