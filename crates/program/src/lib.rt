// What the programs do: an input is read to its end, and the text that is made of it is written.
#![tactic(auto)]

ghost use Rattle.std.specs.Prelude.{◌≡◌, OnOk, IfSome, Err, take, length};
ghost use Rattle.std.specs.Io.KnownBytes.{Appends, Keeps};
ghost use Rattle.program.specs.declared.Text.{Text};
ghost use Rattle.program.specs.Program.{Within, Printed};

use std::error::Error;
use std::fmt;
use std::io::{Read, Write};
use wire::refusal::Refusal;

// What a program prints of a message.
#[derive(Clone, Copy, Debug, PartialEq, Eq)]
pub enum Text {
    Line,
    Checks,
}

// Why a program failed. Where it could not write, a part of the text may be printed.
#[derive(Clone, Copy, Debug, PartialEq, Eq)]
pub enum Failure {
    NotRead,
    NotWritten(Text),
}

impl fmt::Display for Failure {
    fn fmt<W: fmt::Write>(&self, f: &mut fmt::Formatter<W>) -> fmt::Result {
        f.write_str(match self {
            Failure::NotRead =>
                "standard input could not be read to its end, so nothing was printed; give it the whole message again",
            Failure::NotWritten(Text::Line) =>
                "the line could not be written whole; what was printed does not count: make room for it and run this again",
            Failure::NotWritten(Text::Checks) =>
                "the checks could not be written whole; what was printed does not count: make room for them and run this again",
        })
    }
}

impl Error for Failure {}

// Reads the message that the reader gives, or as much of it as `space` holds, and writes what `make` puts into `out` for it. Where
// reading fails, nothing is written. A failure to write names the text.
pub fn print<R, W, F>(
    reader: &mut R,
    writer: &mut W,
    space: &mut [u8],
    out: &mut [u8],
    text: Text,
    make: F,
) -> Result<(), Failure>
where
    R: Read,
    W: Write,
    F: FnOnce(&[u8], &mut [u8]) -> Result<usize, Refusal>,
    requires callable { F.IsAlwaysCallable make }
    requires within { Within F.FnOnce make }
    ensures printed { OnOk result (IfSome (R.remaining reader.old) (λ message.
        Printed F.FnOnce make (take (length space.old) message) out.old (Appends (W.contents writer.old) (W.contents writer.new)))) }
    ensures not_read { result ≡ Err Failure.NotRead → Keeps (W.contents writer.old) (W.contents writer.new) }
    ensures not_written { (t : Text) → result ≡ Err (Failure.NotWritten t) → t ≡ text }
{
    let not_written = Failure::NotWritten(text);
    let n = input::read_whole(reader, space).map_err(|_| Failure::NotRead)?;
    let len = make(&space[..n], out).map_err(|_| not_written)?;
    writer.write_all(&out[..len]).map_err(|_| not_written)
}
