// Answering a challenge by settings that the caller doesn't give whole: the defaults, but for 128-bit.
ghost use Rattle.std.specs.Prelude.{◌≡◌};
ghost use Rattle.respond.specs.Decision.{defaults, bench_settings, old_server_settings};
ghost use Rattle.respond.specs.Answer.{respond_to, supplied, effect};

use crate::answer::{Answer, respond};
use crate::decision::Settings;
use wire::refusal::Refusal;
use write_authenticate::Parts;

// For the bench, which says whether 128-bit is demanded.
pub fn respond_for_bench<'a>(
    out: &mut [u8],
    challenge: &'a [u8],
    clock: u64,
    demand_128: bool,
    parts: &Parts<'a>,
) -> Result<Answer, Refusal>
    ensures { effect result out.new ≡ respond_to (bench_settings demand_128) challenge.now
        (supplied out.old clock parts.now.version.now parts.now.mic.now parts.now.lm.now parts.now.nt.now
        parts.now.domain.now parts.now.user.now parts.now.workstation.now parts.now.key.now) }
{
    respond(out, challenge, Settings::with_128(demand_128), clock, parts)
}

// For old servers, of which 128-bit is not demanded.
pub fn respond_to_old_server<'a>(
    out: &mut [u8],
    challenge: &'a [u8],
    clock: u64,
    parts: &Parts<'a>,
) -> Result<Answer, Refusal>
    ensures { effect result out.new ≡ respond_to old_server_settings challenge.now
        (supplied out.old clock parts.now.version.now parts.now.mic.now parts.now.lm.now parts.now.nt.now
        parts.now.domain.now parts.now.user.now parts.now.workstation.now parts.now.key.now) }
{
    respond(out, challenge, Settings::with_128(false), clock, parts)
}

// For the relay, by the defaults.
pub fn respond_for_relay<'a>(
    out: &mut [u8],
    challenge: &'a [u8],
    clock: u64,
    parts: &Parts<'a>,
) -> Result<Answer, Refusal>
    ensures { effect result out.new ≡ respond_to defaults challenge.now
        (supplied out.old clock parts.now.version.now parts.now.mic.now parts.now.lm.now parts.now.nt.now
        parts.now.domain.now parts.now.user.now parts.now.workstation.now parts.now.key.now) }
{
    respond(out, challenge, Settings::defaults(), clock, parts)
}
