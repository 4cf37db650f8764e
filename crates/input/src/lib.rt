// An input, read to its end. A read that fails, be it not ready or interrupted, is never taken for the end.
#![tactic(auto)]

ghost use Rattle.std.specs.Prelude.{◌≡◌, ◌+◌, ◌^◌, ◌<◌, ◌≤◌, IfOk, length, take};
ghost use Rattle.input.specs.Input.{after_read, InBuffer, Further, WasRead, OnceRead};

use std::io;
use std::io::Read;

// After a read: how many bytes are there, with more to come, or `None` at the input's end. A read that failed is passed on.
fn after_read(at: usize, got: io::Result<usize>) -> io::Result<Option<usize>>
    requires { IfOk got (λ n. at + n < 2 ^ 64) }
    ensures { result ≡ after_read at got }
{
    let n = got?;
    Ok((n > 0).then_some(at + n))
}

// One read, into the part of the buffer from `at` on. A read that is interrupted is not tried again here: it failed.
#[tactic(auto, using(crate::proofs::Laws::reads))]
fn read_once<R: Read>(reader: &mut R, buf: &mut [u8], at: usize) -> io::Result<Option<usize>>
    requires { at ≤ length buf.old }
    ensures further { Further at result buf.new }
    ensures before { take at buf.new ≡ take at buf.old }
    ensures bytes { OnceRead (R.remaining reader.old) (R.remaining reader.new) at result buf.new }
{
    let got = reader.read(&mut buf[at..]);
    after_read(at, got)
}

// Reads until the buffer is full or the input ends: how many bytes it has, or as many of them as the buffer holds.
#[tactic(auto, using(crate::proofs::Laws::reads))]
pub fn read_whole<R: Read>(reader: &mut R, buf: &mut [u8]) -> io::Result<usize>
    ensures in_buffer { InBuffer result buf.new }
    ensures bytes { WasRead (R.remaining reader.old) (R.remaining reader.new) result buf.new }
{
    // Only a read tells how far it went, so no iterator counts `at`.
    let mut at = 0;
    while at < buf.len() {
        let Some(next) = read_once(reader, buf, at)? else {
            break;
        };
        at = next;
    }
    Ok(at)
}

#[cfg(test)]
mod tests {
    use super::*;

    // Gives one byte a read, and fails once after `before` of them.
    #[derive(Drop)]
    struct FailsOnce {
        bytes: &'static [u8],
        before: Option<usize>,
    }

    impl Read for FailsOnce {
        fn read(&mut self, buf: &mut [u8]) -> io::Result<usize> {
            if self.before == Some(0) {
                self.before = None;
                return Err(io::ErrorKind::Interrupted.into());
            }
            self.before = self.before.map(|n| n.saturating_sub(1));
            if self.bytes.is_empty() || buf.is_empty() {
                return Ok(0);
            }
            buf[0] = self.bytes[0];
            self.bytes = &self.bytes[1..];
            Ok(1)
        }
    }

    #[test]
    fn ends_or_fails(rt: HostRuntime) {
        // The buffer's room, how many reads come before one fails, and how many bytes are read.
        let cases = [
            (8, None, Some(5)),
            (5, None, Some(5)),
            (3, None, Some(3)),
            (0, Some(0), Some(0)),
            (8, Some(0), None),
            (8, Some(3), None),
            (8, Some(5), None),
            (5, Some(5), Some(5)),
        ];
        for (room, before, want) in cases {
            let mut space = [0u8; 8];
            let mut reader = FailsOnce {
                bytes: b"hello",
                before,
            };
            let read = read_whole(&mut reader, &mut space[..room]).ok();
            assert_eq!(rt; read, want, "a room of {room}");
            let n = want.unwrap_or(0);
            assert!(rt; b"hello".starts_with(&space[..n]), "a room of {room}");
        }
    }
}
