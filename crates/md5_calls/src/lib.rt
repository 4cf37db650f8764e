// MD5 and HMAC-MD5 by the C calling convention, so that the published vectors run against the compiled code: the library's own calls take keys
// of 16 bytes and whole messages. No part of the library.
#![tactic(auto)]

ghost use Rattle.std.specs.Prelude.{◌≡◌, length};
ghost use Rattle.md5_digest.specs.Digest.{md5};
ghost use Rattle.hmac_md5.specs.Hmac.{hmac};
ghost use Rattle.md5_calls.specs.Calls.{buffer_fits, call_answer, call_after};

use c_number::give_bytes;

fn buffer_fits(size: usize, other: usize, room: usize) -> bool
    ensures { result ≡ buffer_fits size other room }
{
    (size <= 65535) & ((other <= 65535) & (16 <= room))
}

#[tactic(auto, unfolding(crate::specs::Calls::call_answer, crate::specs::Calls::call_after))]
#[unsafe(no_mangle)]
pub extern "C" fn md5_of(m: &[u8], out: &mut [u8]) -> u64
    ensures answer { result ≡ call_answer (buffer_fits (length m.now) 0 (length out.old)) }
    ensures content { out.new ≡ call_after (buffer_fits (length m.now) 0 (length out.old)) (md5 m.now) out.old }
{
    if buffer_fits(m.len(), 0, out.len()) {
        let digest = md5_digest::state::digest(m);
        give_bytes(out, &digest);
        return 0;
    }
    1
}

#[tactic(auto, unfolding(crate::specs::Calls::call_answer, crate::specs::Calls::call_after))]
#[unsafe(no_mangle)]
pub extern "C" fn hmac_md5_of(key: &[u8], m: &[u8], out: &mut [u8]) -> u64
    ensures answer { result ≡ call_answer (buffer_fits (length m.now) (length key.now) (length out.old)) }
    ensures content { out.new ≡ call_after (buffer_fits (length m.now) (length key.now) (length out.old))
        (hmac key.now m.now) out.old }
{
    if buffer_fits(m.len(), key.len(), out.len()) {
        let mac = hmac_md5::mac(key, m);
        give_bytes(out, &mac);
        return 0;
    }
    1
}
