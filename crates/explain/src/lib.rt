// Why a message is refused: the checks of its kind, one to a line, with the figures of the one that failed.
#![tactic(auto)]

ghost use Rattle.std.specs.Prelude.{◌≡◌, min, length};
ghost use Rattle.wire.specs.Number.{u16_at};
ghost use Rattle.wire.specs.Refusal.{number_of};
ghost use Rattle.head.specs.declared.Kind.TheVariants.{Negotiate, Challenge, Authenticate};
ghost use Rattle.place.specs.Written.{bytes_answer, bytes_after};
ghost use Rattle.explain.specs.Explain.{checks_of, fields_by_number, field_numbered, of_pair, figures_of, figures_as, explanation, NumberThere};
ghost use Rattle.verdict.specs.Verdict.{fixed_of, FixedPart, Placed};

use field::{Field, field_at};
use head::{Kind, flags_at, kind_of};
use line_checks::Figures;
use verdict::read_as;
use wire::number::u16_at;
use wire::refusal::Refusal;

// ---- the head of the field that a check failed at; none for field 0. One function for all kinds would be no plainer: places and flags
// differ in each line

#[tactic(auto, using(crate::proofs::Laws::negotiate_heads), unfolding(read_negotiate::specs::Negotiate::fields_at))]
fn negotiate_head(msg: &[u8], field: u8) -> Field
    requires { FixedPart 32 field (length msg.now) }
    ensures { result ≡ field_numbered field (fields_by_number Negotiate msg.now) }
{
    match field {
        1 => field_at(msg, 16, flags_at(msg, 12).oem_domain_supplied()),
        2 => field_at(msg, 24, flags_at(msg, 12).oem_workstation_supplied()),
        _ => Field::default(),
    }
}

#[tactic(auto, using(crate::proofs::Laws::challenge_heads), unfolding(read_challenge::specs::Challenge::fields_at))]
fn challenge_head(msg: &[u8], field: u8) -> Field
    requires { FixedPart 48 field (length msg.now) }
    ensures { result ≡ field_numbered field (fields_by_number Challenge msg.now) }
{
    match field {
        1 => field_at(msg, 12, flags_at(msg, 20).request_target()),
        2 => field_at(msg, 40, flags_at(msg, 20).target_info()),
        _ => Field::default(),
    }
}

#[tactic(auto, using(crate::proofs::Laws::authenticate_heads), unfolding(read_authenticate::specs::Authenticate::fields_at))]
fn authenticate_head(msg: &[u8], field: u8) -> Field
    requires { FixedPart 64 field (length msg.now) }
    ensures { result ≡ field_numbered field (fields_by_number Authenticate msg.now) }
{
    match field {
        1 => field_at(msg, 12, true),
        2 => field_at(msg, 20, true),
        3 => field_at(msg, 28, true),
        4 => field_at(msg, 36, true),
        5 => field_at(msg, 44, true),
        6 => field_at(msg, 52, flags_at(msg, 60).key_exch()),
        _ => Field::default(),
    }
}

// ---- the figures

// The message's length, or 65,536 for all that is longer.
fn message_size(msg: &[u8]) -> u32
    ensures { result ≡ min (length msg.now) 65536 }
{
    msg.len().min(65536) as u32
}

// A number of the pair that failed, 0 where there is none.
fn of_pair(msg: &[u8], e: Refusal, at: usize) -> u16
    requires { NumberThere (number_of e) at (length msg.now) }
    ensures { result ≡ of_pair (number_of e) (u16_at msg.now at) }
{
    match e {
        Refusal::PairPastEnd(_) | Refusal::WrongEndPair(_) | Refusal::WrongPairSize(_) => u16_at(
            msg, at,
        ),
        _ => 0,
    }
}

#[tactic(auto, using(crate::proofs::Laws::refused_figures))]
fn figures_of(msg: &[u8], head: Field, e: Refusal) -> Figures
    requires { Placed e (length msg.now) }
    ensures { result ≡ figures_of msg.now head e }
{
    let at = e.place();
    Figures {
        number: e.number(),
        field: e.field(),
        head,
        message: message_size(msg),
        at: at as u32,
        id: of_pair(msg, e, at),
        size: of_pair(msg, e, at + 2),
    }
}

// The head of the field by its number, in a message of a kind.
#[tactic(auto, using(crate::proofs::Laws::heads))]
fn head_as(kind: Kind, msg: &[u8], field: u8) -> Field
    requires { FixedPart (fixed_of kind) field (length msg.now) }
    ensures { result ≡ field_numbered field (fields_by_number kind msg.now) }
{
    match kind {
        Kind::Negotiate => negotiate_head(msg, field),
        Kind::Challenge => challenge_head(msg, field),
        Kind::Authenticate => authenticate_head(msg, field),
    }
}

#[tactic(auto, using(crate::proofs::Laws::figures))]
fn figures_as(kind: Kind, msg: &[u8]) -> Figures
    ensures { result ≡ figures_as kind msg.now }
{
    match read_as(kind, msg) {
        // No check failed.
        Ok(()) => Figures::default(),
        Err(e) => figures_of(msg, head_as(kind, msg, e.field()), e),
    }
}

// ---- the print

// The checks of a kind, in the order in which they are made.
fn checks_of(kind: Kind) -> &'static [u8]
    ensures { result.now ≡ checks_of kind }
{
    match kind {
        Kind::Negotiate => &[1, 2, 3, 4, 5, 6, 7],
        Kind::Challenge => &[1, 2, 3, 4, 5, 6, 7, 8, 11, 12, 10, 13],
        Kind::Authenticate => &[1, 2, 3, 4, 5, 6, 7, 8, 9],
    }
}

// The checks of the kind that the NTLM program reads the message as, at the start of the output: their length, or 33 with the
// output as it was. A refused message's print is an answer.
#[tactic(auto, using(crate::proofs::Laws::printed))]
pub fn write(msg: &[u8], out: &mut [u8]) -> Result<usize, Refusal>
    ensures answer { result ≡ bytes_answer (explanation msg.now) out.old }
    ensures content { out.new ≡ bytes_after (explanation msg.now) out.old }
{
    let kind = kind_of(msg);
    line_checks::write(out, checks_of(kind), figures_as(kind, msg))
}
