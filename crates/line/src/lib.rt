// Log lines: one for each message read.
#![tactic(auto)]

ghost use Rattle.std.specs.Prelude.{◌≡◌};
ghost use Rattle.line.specs.Line.{negotiate_line, authenticate_line, nl_auth_line, challenge_line, ntlm_line, shown_line};
ghost use Rattle.place.specs.Written.{bytes_answer, bytes_after};

use head::{Kind, kind_of};
use wire::refusal::Refusal;

// The line of a message read as AUTHENTICATE, at the start of the output: its length, or 33 with the output as it was.
pub fn authenticate_line(msg: &[u8], out: &mut [u8]) -> Result<usize, Refusal>
    ensures answer { result ≡ bytes_answer (authenticate_line msg.now) out.old }
    ensures content { out.new ≡ bytes_after (authenticate_line msg.now) out.old }
{
    let answer = read_authenticate::read(msg);
    let reading = answer.reading;
    match reading {
        Ok(a) => line_authenticate::write(out, msg, a),
        Err(e) => line_refused::write(out, e),
    }
}

// The line of a message read as NL_AUTH, at the start of the output: its length, or 33 with the output as it was.
pub fn nl_auth_line(msg: &[u8], out: &mut [u8]) -> Result<usize, Refusal>
    ensures answer { result ≡ bytes_answer (nl_auth_line msg.now) out.old }
    ensures content { out.new ≡ bytes_after (nl_auth_line msg.now) out.old }
{
    let reading = read_nl_auth::read(msg);
    match reading {
        Ok(m) => line_nl_auth::write(out, msg, m),
        Err(e) => line_refused::write(out, e),
    }
}

// The line of a message read as CHALLENGE, at the start of the output: its length, or 33 with the output as it was.
pub fn challenge_line(msg: &[u8], out: &mut [u8]) -> Result<usize, Refusal>
    ensures answer { result ≡ bytes_answer (challenge_line msg.now) out.old }
    ensures content { out.new ≡ bytes_after (challenge_line msg.now) out.old }
{
    match read_challenge::read_full(msg) {
        Ok(f) => line_challenge::write(out, msg, f),
        Err(e) => line_refused::write(out, e),
    }
}

// The line of a message read as NEGOTIATE, at the start of the output: its length, or 33 with the output as it was.
pub fn negotiate_line(msg: &[u8], out: &mut [u8]) -> Result<usize, Refusal>
    ensures answer { result ≡ bytes_answer (negotiate_line msg.now) out.old }
    ensures content { out.new ≡ bytes_after (negotiate_line msg.now) out.old }
{
    match read_negotiate::read(msg) {
        Ok(m) => line_negotiate::write(out, msg, m),
        Err(e) => line_refused::write(out, e),
    }
}

// The line of a message read as the kind that its type says, and as AUTHENTICATE where it says no other.
pub fn ntlm_line(msg: &[u8], out: &mut [u8]) -> Result<usize, Refusal>
    ensures answer { result ≡ bytes_answer (ntlm_line msg.now) out.old }
    ensures content { out.new ≡ bytes_after (ntlm_line msg.now) out.old }
{
    match kind_of(msg) {
        Kind::Negotiate => negotiate_line(msg, out),
        Kind::Challenge => challenge_line(msg, out),
        Kind::Authenticate => authenticate_line(msg, out),
    }
}

// What the NTLM program prints: the message's line, or that of 33 where the line has no room.
pub fn ntlm_program_line(msg: &[u8], out: &mut [u8]) -> Result<usize, Refusal>
    ensures answer { result ≡ bytes_answer (shown_line (ntlm_line msg.now) out.old) out.old }
    ensures content { out.new ≡ bytes_after (shown_line (ntlm_line msg.now) out.old) out.old }
{
    let written = ntlm_line(msg, out);
    let Ok(_) = written else {
        return line_refused::write(out, Refusal::NoRoom);
    };
    written
}

// What the NL_AUTH program prints, likewise.
pub fn nl_auth_program_line(msg: &[u8], out: &mut [u8]) -> Result<usize, Refusal>
    ensures answer { result ≡ bytes_answer (shown_line (nl_auth_line msg.now) out.old) out.old }
    ensures content { out.new ≡ bytes_after (shown_line (nl_auth_line msg.now) out.old) out.old }
{
    let written = nl_auth_line(msg, out);
    let Ok(_) = written else {
        return line_refused::write(out, Refusal::NoRoom);
    };
    written
}
