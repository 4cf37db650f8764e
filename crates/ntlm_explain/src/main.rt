// Reads one NTLM message from standard input and prints its checks, held, failed or not reached. Where that fails, standard error
// says so.
#![tactic(auto)]

ghost use Rattle.std.specs.Prelude.{◌≡◌, OnOk, IfSome, take, length};
ghost use Rattle.std.specs.Io.KnownBytes.{Appends, Keeps};
ghost use Rattle.explain.specs.Explain.{explanation};

use program::{Failure, Text};
use std::io::{Read, Write};

// Writes the checks of the message that the reader gives, or of as much of it as `space` holds. Where reading fails, nothing is written.
#[tactic(auto, using(line::proofs::Programs::written))]
fn print_checks<R: Read, W: Write>(
    reader: &mut R,
    writer: &mut W,
    space: &mut [u8],
    out: &mut [u8],
) -> Result<(), Failure>
    ensures printed { OnOk result (IfSome (R.remaining reader.old) (λ message.
        Appends (W.contents writer.old) (W.contents writer.new) (explanation (take (length space.old) message)))) }
    ensures not_read { result ≡ Err Failure.NotRead → Keeps (W.contents writer.old) (W.contents writer.new) }
{
    program::print(reader, writer, space, out, Text::Checks, explain::write)
}

// One function for the three programs would be public, and no contract could say what it does.
fn main(rt: HostRuntime) {
    // One byte more than the longest message, so that a longer one is refused and not cut.
    let mut space = [0u8; 65536];
    let mut out = [0u8; 65536];
    if let Err(failure) = print_checks(&mut rt.stdin(), &mut rt.stdout(), &mut space, &mut out) {
        // The status stays 0, so `main` returns no Result.
        let _ = eprintln!(rt; "ntlm_explain: {failure}");
    }
}
