// Answering a challenge by the C interface.
#![tactic(auto)]

ghost use Rattle.std.specs.Prelude.{◌≡◌, ◌≤◌, length};
ghost use Rattle.respond.specs.Answer.{supplied};
ghost use Rattle.respond.specs.Decision.{decision_on};
ghost use Rattle.c_number.specs.Outcome.{call_number, call_out};
ghost use Rattle.c_respond.specs.Settings.{settings_of};
ghost use Rattle.c_respond.specs.Respond.{decision_numbers, decided_outcome, answered_number, answered_out, RespondsFromC};

use crate::settings::SettingsBits;
use c_number::{give, hand_out, refusal_number};
use place::written::room_holds;
use respond::answer::Answer;
use respond::decision::Decision;
use wire::check::Checked;
use wire::refusal::Refusal;
use write_authenticate::Parts;

pub mod settings;

#[tactic(auto, unfolding(crate::specs::Respond::decision_numbers))]
fn decision_numbers(d: Decision) -> [u64; 3]
    ensures { result ≡ decision_numbers d.flags.bits d.timestamp }
{
    match d.timestamp {
        Some(t) => [u64::from(d.flags.bits), 1, t],
        None => [u64::from(d.flags.bits), 0, 0],
    }
}

// Reading, 20 and 21.
pub fn decide(settings: u32, challenge: &[u8], numbers: &mut [u64]) -> u64
    ensures answer { result ≡ call_number 3 (decided_outcome (decision_on (settings_of settings) challenge.now)) (length numbers.old) }
    ensures content { numbers.new ≡ call_out 3 (decided_outcome (decision_on (settings_of settings) challenge.now)) numbers.old }
{
    let settings = SettingsBits { bits: settings }.settings();
    hand_out(
        numbers,
        3,
        || respond::decision::decide(settings, challenge).map(decision_numbers),
    )
}

// The answer's length, with the rest of it in an array that has room for it.
fn give_answer(numbers: &mut [u64], answered: Result<Answer, Refusal>) -> u64
    requires { 2 ≤ length numbers.old }
    ensures answer { result ≡ answered_number answered }
    ensures content { numbers.new ≡ answered_out answered numbers.old }
{
    match answered {
        Ok(a) => {
            give(numbers, &[a.time, u64::from(a.mic_due)]);
            a.len as u64
        }
        Err(e) => refusal_number(e),
    }
}

// Answers a challenge by the settings.
#[tactic(auto, unfolding(crate::specs::Respond::respond_from_c))]
pub fn respond<'a>(
    out: &mut [u8],
    challenge: &'a [u8],
    settings: u32,
    clock: u64,
    parts: &Parts<'a>,
    numbers: &mut [u64],
) -> u64
    ensures { RespondsFromC (settings_of settings) challenge.now
        (supplied out.old clock parts.now.version.now parts.now.mic.now parts.now.lm.now parts.now.nt.now
        parts.now.domain.now parts.now.user.now parts.now.workstation.now parts.now.key.now)
        result out.new numbers.old numbers.new }
{
    let Checked::Held = room_holds(2, numbers.len()) else {
        return refusal_number(Refusal::NoRoom);
    };
    let settings = SettingsBits { bits: settings }.settings();
    let answered = respond::answer::respond(out, challenge, settings, clock, parts);
    give_answer(numbers, answered)
}
