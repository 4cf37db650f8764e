// A message's verdict: read as a kind, whatever its own type says, all its checks held, or the refusal of the first that failed.
#![tactic(auto)]

ghost use Rattle.std.specs.Prelude.{◌≡◌};
ghost use Rattle.verdict.specs.Verdict.{read_as};

use head::Kind;
use wire::refusal::Refusal;

// Inlined: an answer with two tags that comes back through memory is stored in other pieces than it is loaded in.
#[inline(always)]
#[tactic(auto, using(crate::proofs::Laws::challenge_verdict))]
pub fn read_as(kind: Kind, msg: &[u8]) -> Result<(), Refusal>
    ensures { result ≡ read_as kind msg.now }
{
    match kind {
        Kind::Negotiate => read_negotiate::read(msg).map(|_| ()),
        Kind::Challenge => read_challenge::read_full(msg).map(|_| ()),
        Kind::Authenticate => read_authenticate::read(msg).reading.map(|_| ()),
    }
}
