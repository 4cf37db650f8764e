// Messages in HTTP header lines (request 12/12): the scheme word, a space, and the message in base64.
#![tactic(auto)]

ghost use Rattle.std.specs.Prelude.{◌≡◌, ◌+◌, ◌≤◌, length, drop};
ghost use Rattle.place.specs.Place.{Wrote};
ghost use Rattle.place.specs.Written.{answered, out_after};
ghost use Rattle.base64_text.specs.Base64.{decode};
ghost use Rattle.http_header_line.specs.HttpHeader.{header_line, message_holds, check_export, export_answer, export_out, scheme_holds, text_after_scheme, check_text, import_answer, import_out};

use base64_text::{decoded_size, is_base64, put_decoded, put_encoded};
use place::Place;
use place::written::room_holds;
use wire::check::{Checked, check};
use wire::refusal::Refusal;

// Check 1.
fn message_holds(n: usize) -> Checked
    ensures { result ≡ message_holds n }
{
    check(n <= 65535)
}

// Checks 1 and 33 of an export.
#[tactic(auto, using(crate::proofs::Laws::line_length), unfolding(crate::specs::HttpHeader::check_export))]
fn check_export(room: usize, msg: &[u8]) -> Result<(), Refusal>
    ensures { result ≡ check_export room msg.now }
{
    let n = msg.len();
    let Checked::Held = message_holds(n) else {
        return Err(Refusal::TooLong);
    };
    let size = 5 + 4 * ((n + 2) / 3);
    let Checked::Held = room_holds(size, room) else {
        return Err(Refusal::NoRoom);
    };
    Ok(())
}

// The line of a message whose checks held.
#[tactic(auto, using(crate::proofs::Laws::word_room, crate::proofs::Laws::text_room, place::proofs::Laws::and_then), unfolding(crate::specs::HttpHeader::header_line))]
fn put_line(out: &mut [u8], msg: &[u8]) -> Place
    requires { length (header_line msg.now) ≤ length out.old }
    ensures { Wrote out.old out.new 0 result.at (header_line msg.now) }
{
    let place = Place { at: 0 }.put_bytes(out, b"NTLM ");
    put_encoded(place, out, msg)
}

// Writes the line of a message: its length, or the refusal with the output as it was.
#[tactic(auto, using(crate::proofs::Laws::line_fits), unfolding(crate::specs::HttpHeader::export_answer, crate::specs::HttpHeader::export_out))]
pub fn export(out: &mut [u8], msg: &[u8]) -> Result<usize, Refusal>
    ensures answer { result ≡ export_answer (length out.old) msg.now }
    ensures content { out.new ≡ export_out out.old msg.now }
{
    check_export(out.len(), msg)?;
    let end = put_line(out, msg);
    Ok(end.at)
}

// Check 57: `NTLM` in any letter case, and a space.
fn scheme_holds(line: &[u8]) -> Checked
    ensures { result ≡ scheme_holds line.now }
{
    let Some((word, _)) = line.split_first_chunk::<5>() else {
        return Checked::Failed;
    };
    check(word.eq_ignore_ascii_case(b"NTLM "))
}

// Where the text starts, after the scheme word and its spaces.
#[tactic(auto, using(crate::proofs::Laws::none_skipped))]
fn text_start(line: &[u8]) -> usize
    requires { 4 ≤ length line.now }
    ensures { (result ≤ length line.now) × (drop result line.now ≡ text_after_scheme line.now) }
{
    for i in 4..line.len() {
        if line[i] != b' ' {
            return i;
        }
    }
    line.len()
}

// Checks 58, 1 and 33 of a text. The message's length is known before anything is written.
#[tactic(auto, unfolding(crate::specs::HttpHeader::check_text))]
fn check_text(room: usize, text: &[u8]) -> Result<(), Refusal>
    ensures { result ≡ check_text room text.now }
{
    let Checked::Held = check(is_base64(text)) else {
        return Err(Refusal::WrongBase64);
    };
    let n = decoded_size(text);
    let Checked::Held = message_holds(n) else {
        return Err(Refusal::TooLong);
    };
    let Checked::Held = room_holds(n, room) else {
        return Err(Refusal::NoRoom);
    };
    Ok(())
}

// Writes the message that a text stands for.
#[tactic(auto, using(crate::proofs::Laws::text_base64, crate::proofs::Laws::text_fits))]
fn import_text(out: &mut [u8], text: &[u8]) -> Result<usize, Refusal>
    ensures answer { result ≡ answered (check_text (length out.old) text.now) (decode text.now) }
    ensures content { out.new ≡ out_after (check_text (length out.old) text.now) (decode text.now) out.old }
{
    check_text(out.len(), text)?;
    let end = put_decoded(Place { at: 0 }, out, text);
    Ok(end.at)
}

// Reads a line and writes its message: the message's length, or the refusal with the output as it was.
#[tactic(auto, using(crate::proofs::Laws::scheme_long), unfolding(crate::specs::HttpHeader::check_import, crate::specs::HttpHeader::import_answer, crate::specs::HttpHeader::import_out))]
pub fn import(out: &mut [u8], line: &[u8]) -> Result<usize, Refusal>
    ensures answer { result ≡ import_answer (length out.old) line.now }
    ensures content { out.new ≡ import_out out.old line.now }
{
    let Checked::Held = scheme_holds(line) else {
        return Err(Refusal::WrongScheme);
    };
    let from = text_start(line);
    import_text(out, &line[from..])
}
