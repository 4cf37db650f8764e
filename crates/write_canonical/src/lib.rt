// AUTHENTICATE_MESSAGE (MS-NLMP 2.2.1.3), tidied: one writing for one meaning.
#![tactic(auto)]

ghost use Rattle.std.specs.Prelude.{◌≡◌, length};
ghost use Rattle.write_canonical.specs.Canonical.{meaning_of, meaning_answer, meaning_out, canonical_answer, canonical_out};

use read_authenticate::{Authenticate, read};
use wire::refusal::Refusal;
use write_authenticate::Parts;

// Writes what a message means whose reading answered `a` and these MIC bytes: Version is zero whatever the flags say.
fn write_meaning(
    out: &mut [u8],
    msg: &[u8],
    a: Authenticate,
    mic: &[u8; 16],
) -> Result<usize, Refusal>
    ensures answer { result ≡ meaning_answer (length out.old) (meaning_of msg.now mic.now a) }
    ensures content { out.new ≡ meaning_out out.old (meaning_of msg.now mic.now a) }
{
    let f = a.fields;
    let version = [0u8; 8];
    let parts = Parts {
        version: &version,
        mic,
        lm: f.lm.bytes(msg),
        nt: f.nt.bytes(msg),
        domain: f.domain.bytes(msg),
        user: f.user.bytes(msg),
        workstation: f.workstation.bytes(msg),
        key: f.key.bytes(msg),
    };
    write_authenticate::write(out, a.flags, &parts)
}

// Reads an AUTHENTICATE and writes it by document 01's layout; refuses as reading does, and then by checks 32, 30 and 33.
pub fn write(out: &mut [u8], msg: &[u8]) -> Result<usize, Refusal>
    ensures answer { result ≡ canonical_answer (length out.old) msg.now }
    ensures content { out.new ≡ canonical_out out.old msg.now }
{
    let answer = read(msg);
    let a = answer.reading?;
    write_meaning(out, msg, a, &answer.mic)
}
