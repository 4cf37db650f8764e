// The MIC of the C interface: a number for the answer, and its sixteen bytes in a lent array.
#![tactic(auto)]

ghost use Rattle.std.specs.Prelude.{◌≡◌, length};
ghost use Rattle.c_number.specs.Outcome.{call_number, call_out};
ghost use Rattle.mic.specs.Mic.{computed_mic, check_mic};
ghost use Rattle.c_mic.specs.Numbers.{mic_outcome, checking_number};

use c_number::{give_bytes, refusal_number};
use place::written::room_holds;
use wire::check::Checked;
use wire::refusal::Refusal;

// Works out the MIC. Not by `hand_out`: its array is of bytes, and at a type parameter `call_out` would have no lists of numbers to speak of.
#[tactic(auto, unfolding(c_number::specs::Outcome::call_number, c_number::specs::Outcome::call_out))]
pub fn compute(key: &[u8], nego: &[u8], chal: &[u8], auth: &[u8], out: &mut [u8]) -> u64
    ensures answer { result ≡ call_number 16 (mic_outcome (computed_mic key.now nego.now chal.now auth.now)) (length out.old) }
    ensures content { out.new ≡ call_out 16 (mic_outcome (computed_mic key.now nego.now chal.now auth.now)) out.old }
{
    let Checked::Held = room_holds(16, out.len()) else {
        return refusal_number(Refusal::NoRoom);
    };
    let computed = mic::compute(key, nego, chal, auth);
    match computed.verdict {
        Ok(()) => {
            give_bytes(out, &computed.mic);
            0
        }
        Err(e) => refusal_number(e),
    }
}

// Checks it.
pub fn check_mic(key: &[u8], nego: &[u8], chal: &[u8], auth: &[u8]) -> u64
    ensures { result ≡ checking_number (check_mic key.now nego.now chal.now auth.now) }
{
    match mic::check_mic(key, nego, chal, auth) {
        Ok(same) => u64::from(same),
        Err(e) => refusal_number(e),
    }
}
