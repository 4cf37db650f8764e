// Answering a challenge: what is written, Time, and whether a MIC is due.
ghost use Rattle.std.specs.Prelude.{◌≡◌, ◌&&◌, cond};
ghost use Rattle.respond.specs.Answer.{mic_due, time_to_send, mic_to_send, key_to_send, sending, respond_to, supplied, effect};

use crate::decision::{Decision, Settings, decide_on};
use crate::domain::domain_of;
use negotiate_flags::NegotiateFlags;
use read_challenge::read_full;
use wire::refusal::Refusal;
use write_authenticate::{Parts, write};

#[derive(Clone, Copy)]
pub struct Answer {
    pub len: usize,
    pub time: u64,
    pub mic_due: bool,
}

fn mic_due(timestamp: Option<u64>) -> bool
    ensures { result ≡ mic_due timestamp }
{
    timestamp.is_some()
}

fn time_to_send(settings: Settings, timestamp: Option<u64>, clock: u64) -> u64
    ensures { result ≡ time_to_send settings timestamp clock }
{
    match timestamp {
        Some(t) if settings.ntlmv2 => t,
        _ => clock,
    }
}

#[tactic(auto, unfolding(crate::specs::Answer::mic_to_send))]
fn mic_to_send(timestamp: Option<u64>, mic: &[u8; 16]) -> [u8; 16]
    ensures { result ≡ mic_to_send timestamp mic.now }
{
    if mic_due(timestamp) {
        return *mic;
    }
    [0u8; 16]
}

// Whichever of the two LM responses is written.
fn lm_to_send<'a>(
    settings: Settings,
    timestamp: Option<u64>,
    zeros: &'a [u8],
    lm: &'a [u8],
) -> &'a [u8]
    ensures { result.now ≡ cond (settings.ntlmv2 && mic_due timestamp) zeros.now lm.now }
{
    if settings.ntlmv2 & mic_due(timestamp) {
        return zeros;
    }
    lm
}

// The key, or the empty part of it where it is passed over.
#[tactic(auto, unfolding(crate::specs::Answer::key_to_send))]
fn key_to_send(flags: NegotiateFlags, key: &[u8]) -> &[u8]
    ensures { result.now ≡ key_to_send flags key.now }
{
    if flags.key_exch() & (flags.sign() | flags.seal()) {
        return key;
    }
    &key[..0]
}

// Writes the answer to a challenge that was taken.
fn send(
    out: &mut [u8],
    settings: Settings,
    d: Decision,
    clock: u64,
    parts: &Parts,
) -> Result<Answer, Refusal>
    ensures { effect result out.new ≡ sending settings d
        (supplied out.old clock parts.now.version.now parts.now.mic.now parts.now.lm.now parts.now.nt.now
        parts.now.domain.now parts.now.user.now parts.now.workstation.now parts.now.key.now) }
{
    let timestamp = d.timestamp;
    let mic = mic_to_send(timestamp, parts.mic);
    let zeros = [0u8; 24];
    let sent = Parts {
        mic: &mic,
        lm: lm_to_send(settings, timestamp, &zeros, parts.lm),
        key: key_to_send(d.flags, parts.key),
        ..*parts
    };
    let len = write(out, d.flags, &sent)?;
    Ok(Answer {
        len,
        time: time_to_send(settings, timestamp, clock),
        mic_due: mic_due(timestamp),
    })
}

// Answers a challenge by the settings; the MIC and the key are written where they are due.
pub fn respond<'a>(
    out: &mut [u8],
    challenge: &'a [u8],
    settings: Settings,
    clock: u64,
    parts: &Parts<'a>,
) -> Result<Answer, Refusal>
    ensures { effect result out.new ≡ respond_to settings challenge.now
        (supplied out.old clock parts.now.version.now parts.now.mic.now parts.now.lm.now parts.now.nt.now
        parts.now.domain.now parts.now.user.now parts.now.workstation.now parts.now.key.now) }
{
    let f = read_full(challenge)?;
    let d = decide_on(settings, challenge, f)?;
    let sent = Parts {
        domain: domain_of(parts.domain, challenge, f.challenge),
        ..*parts
    };
    send(out, settings, d, clock, &sent)
}
