// The decision on a challenge: what the settings want of it, and what of it decides the answer.
ghost use Rattle.std.specs.Prelude.{◌≡◌, Ok};
ghost use Rattle.av_pairs.specs.AvPairs.{check_pairs};
ghost use Rattle.read_challenge.specs.Challenge.{full_reading_of};
ghost use Rattle.target_info.specs.TargetInfo.{server_names_in};
ghost use Rattle.respond.specs.Decision.{defaults, bench_settings, strength_holds, server_names_hold, decision_on};

use negotiate_flags::NegotiateFlags;
use read_challenge::{FullChallenge, read_full};
use target_info::server_names_in;
use wire::check::{Checked, check};
use wire::refusal::Refusal;

#[derive(Clone, Copy)]
pub struct Settings {
    pub demand_128: bool,
    pub ntlmv2: bool,
    pub integrity: bool,
    pub confidentiality: bool,
}

// Of a challenge that is answered.
#[derive(Clone, Copy)]
pub struct Decision {
    pub flags: NegotiateFlags,
    pub timestamp: Option<u64>,
}

impl Settings {
    // The settings of whoever gives none.
    pub fn defaults() -> Settings
        ensures { result ≡ defaults }
    {
        Settings {
            demand_128: true,
            ntlmv2: true,
            integrity: false,
            confidentiality: false,
        }
    }

    // The defaults but for 128-bit, which is demanded or not.
    pub(crate) fn with_128(demand_128: bool) -> Settings
        ensures { result ≡ bench_settings demand_128 }
    {
        Settings {
            demand_128,
            ..Settings::defaults()
        }
    }

    // Check 20.
    fn strength_holds(self, flags: NegotiateFlags) -> Checked
        ensures { result ≡ strength_holds self flags }
    {
        check(!self.demand_128 | flags.negotiate_128())
    }
}

// Check 21 for the pairs of a challenge, which are looked at only where the names are wanted.
fn names_hold(settings: Settings, list: &[u8]) -> Checked
    requires { check_pairs list.now ≡ Ok tt }
    ensures { result ≡ server_names_hold settings (server_names_in list.now) }
{
    if settings.ntlmv2 & (settings.integrity | settings.confidentiality) {
        let names = server_names_in(list);
        return check(names.nb_computer_name & names.nb_domain_name);
    }
    Checked::Held
}

// Checks 20 and 21 on a challenge that was taken as `f`.
pub(crate) fn decide_on(
    settings: Settings,
    challenge: &[u8],
    f: FullChallenge,
) -> Result<Decision, Refusal>
    requires { full_reading_of challenge.now ≡ Ok f }
    ensures { result ≡ decision_on settings challenge.now }
{
    let c = f.challenge;
    let Checked::Held = settings.strength_holds(c.flags) else {
        return Err(Refusal::No128Bit);
    };
    let list = c.fields.target_info.bytes(challenge);
    let Checked::Held = names_hold(settings, list) else {
        return Err(Refusal::NoServerNames);
    };
    Ok(Decision {
        flags: c.flags,
        timestamp: f.contents.timestamp,
    })
}

// Reading, then checks 20 and 21.
pub fn decide(settings: Settings, challenge: &[u8]) -> Result<Decision, Refusal>
    ensures { result ≡ decision_on settings challenge.now }
{
    let f = read_full(challenge)?;
    decide_on(settings, challenge, f)
}
