// The MIC of an AUTHENTICATE message: worked out from a session key and the three messages, and checked.
#![tactic(auto)]

ghost use Rattle.std.specs.Prelude.{◌≡◌, ◌+◌, ◌≤◌, length, Err, Ok};
ghost use Rattle.wire.specs.declared.refusal.Refusal.TheVariants.{NoMic};
ghost use Rattle.wire.specs.Check.{checked, after};
ghost use Rattle.wire.specs.Number.{stands_at};
ghost use Rattle.read_authenticate.specs.Authenticate.{read_authenticate};
ghost use Rattle.md5_digest.specs.State.{taken};
ghost use Rattle.hmac_md5.specs.Hmac.{begun};
ghost use Rattle.mic.specs.Mic.{zeroed, mic_of, authenticate_verdict, check_inputs, computed_mic, check_mic};

use head::Kind;
use md5_digest::state::State;
use verdict::read_as;
use wire::check::{Checked, check};
use wire::refusal::Refusal;

// What working it out answers; the MIC's bytes are zeros where there is a refusal.
#[derive(Clone, Copy)]
pub struct Computed {
    pub verdict: Result<(), Refusal>,
    pub mic: [u8; 16],
}

// The AUTHENTICATE's reading refusals, and then check 56.
fn authenticate_verdict(auth: &[u8]) -> Result<(), Refusal>
    ensures { result ≡ authenticate_verdict (read_authenticate auth.now).reading }
{
    let a = read_authenticate::read(auth).reading?;
    mic_verdict(a.mic_present)
}

// Check 56.
#[tactic(auto, using(wire::proofs::Laws::chain))]
fn mic_verdict(present: bool) -> Result<(), Refusal>
    ensures { result ≡ after (checked present) (Err NoMic) (Ok tt) }
{
    let Checked::Held = check(present) else {
        return Err(Refusal::NoMic);
    };
    Ok(())
}

// Check 55 of a key of so many bytes, the three readings in the order of the messages, and check 56.
fn check_inputs(size: usize, nego: &[u8], chal: &[u8], auth: &[u8]) -> Result<(), Refusal>
    ensures { result ≡ check_inputs size nego.now chal.now auth.now }
{
    let Checked::Held = check(size == 16) else {
        return Err(Refusal::WrongSessionKey);
    };
    read_as(Kind::Negotiate, nego)?;
    read_as(Kind::Challenge, chal)?;
    authenticate_verdict(auth)
}

// The first two messages, after the key.
#[tactic(auto, using(crate::proofs::Laws::two_pieces))]
fn two_taken(key: &[u8], nego: &[u8], chal: &[u8]) -> State
    requires { (length key.now ≤ 64) × ((length nego.now ≤ 65535) × (length chal.now ≤ 65535)) }
    ensures { (result.count ≤ 0x100000) × (result ≡ taken (taken (begun key.now) nego.now) chal.now) }
{
    let s = hmac_md5::begin(key);
    let t = s.update(nego);
    t.update(chal)
}

// The AUTHENTICATE in three parts, of which the second is sixteen zeros.
fn zeroed_taken(s: State, auth: &[u8]) -> State
    requires { (s.count ≤ 0x100000) × ((88 ≤ length auth.now) × (length auth.now ≤ 65535)) }
    ensures { (result.count ≤ 0x200000) × (result ≡ taken s (zeroed auth.now)) }
{
    let front = s.update(&auth[..72]);
    let blank = front.update(&[0; 16]);
    blank.update(&auth[88..])
}

// The MIC where no check failed.
#[tactic(auto, using(crate::proofs::Laws::keyed))]
fn mic_of(key: &[u8], nego: &[u8], chal: &[u8], auth: &[u8]) -> [u8; 16]
    requires { check_inputs (length key.now) nego.now chal.now auth.now ≡ Ok tt }
    ensures { result ≡ mic_of key.now nego.now chal.now auth.now }
{
    let s = two_taken(key, nego, chal);
    let t = zeroed_taken(s, auth);
    hmac_md5::end(key, t)
}

// Whether sixteen bytes stand at a place. All of them are looked at whatever they hold: an answer that came sooner at the first byte that
// differs would tell whoever measures it how much of a guessed MIC is right.
#[tactic(auto, using(crate::proofs::Comparison::compared))]
fn stands_at(s: &[u8], at: usize, xs: [u8; 16]) -> bool
    requires { at + 16 ≤ length s.now }
    ensures { result ≡ stands_at s.now at xs }
{
    let mut same = true;
    for i in 0..16 {
        same &= s[at + i] == xs[i];
    }
    same
}

// Works out the MIC: from a session key of 16 bytes and the three messages, the sixteen bytes of the AUTHENTICATE's MIC taken as zero.
#[tactic(auto, using(crate::proofs::Laws::worked))]
pub fn compute(key: &[u8], nego: &[u8], chal: &[u8], auth: &[u8]) -> Computed
    ensures { result ≡ computed_mic key.now nego.now chal.now auth.now }
{
    let verdict = check_inputs(key.len(), nego, chal, auth);
    let Ok(()) = verdict else {
        return Computed {
            verdict,
            mic: [0u8; 16],
        };
    };
    let mic = mic_of(key, nego, chal, auth);
    Computed { verdict, mic }
}

// Whether the AUTHENTICATE has that MIC.
pub fn check_mic(key: &[u8], nego: &[u8], chal: &[u8], auth: &[u8]) -> Result<bool, Refusal>
    ensures { result ≡ check_mic key.now nego.now chal.now auth.now }
{
    check_inputs(key.len(), nego, chal, auth)?;
    let mic = mic_of(key, nego, chal, auth);
    Ok(stands_at(auth, 72, mic))
}
