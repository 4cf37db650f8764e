// The text of an NL_AUTH string, as the message's line has it. `utf8` is set for strings C, D and E, and clear for A and B.
#![tactic(auto)]

ghost use Rattle.std.specs.Prelude.{◌≡◌, ◌-◌, length};
ghost use Rattle.place.specs.Place.{Wrote};
ghost use Rattle.place.specs.Written.{bytes_answer, bytes_after};
ghost use Rattle.line_words.specs.Words.{Room};
ghost use Rattle.line_nl_string.specs.StringText.{either_text, string_text, text_answer, text_after};

use line_dns_name::name_size;
use line_words::name::Units;
use place::Place;
use place::written::{room_after, room_holds};
use read_nl_auth::NlAuth;
use read_nl_auth::name::{buffer, in_buffer};
use read_nl_auth::string::NlString;
use wire::check::Checked;
use wire::refusal::Refusal;

// The length of a text. That of string A or B is known by what it leaves of the most that it may have: four bytes for each of the
// string's.
fn text_size(msg: &[u8], utf8: bool, string: NlString) -> usize
    ensures { result ≡ length (either_text utf8 msg.now string) }
{
    if utf8 {
        return name_size(buffer(msg), in_buffer(string.offset));
    }
    let most = 4 * string.len as usize;
    let units = Units {
        bytes: string.bytes(msg),
        unicode: false,
    };
    most - units.room_after(most)
}

// What it leaves of a room.
pub fn room_after_text(room: usize, msg: &[u8], utf8: bool, string: NlString) -> usize
    ensures { result ≡ room - length (either_text utf8 msg.now string) }
{
    room_after(room, text_size(msg, utf8, string))
}

// The text, at the start of the output.
pub fn put_text(out: &mut [u8], msg: &[u8], utf8: bool, string: NlString) -> Place
    requires { Room 0 (either_text utf8 msg.now string) (length out.old) }
    ensures { Wrote out.old out.new 0 result.at (either_text utf8 msg.now string) }
{
    if utf8 {
        let at = in_buffer(string.offset);
        return line_dns_name::put_name(Place { at: 0 }, out, buffer(msg), at);
    }
    let units = Units {
        bytes: string.bytes(msg),
        unicode: false,
    };
    units.put(out)
}

// ---- one text alone

fn write_text(out: &mut [u8], msg: &[u8], utf8: bool, string: NlString) -> Result<usize, Refusal>
    ensures answer { result ≡ bytes_answer (either_text utf8 msg.now string) out.old }
    ensures content { out.new ≡ bytes_after (either_text utf8 msg.now string) out.old }
{
    let Checked::Held = room_holds(text_size(msg, utf8, string), out.len()) else {
        return Err(Refusal::NoRoom);
    };
    Ok(put_text(out, msg, utf8, string).at)
}

// The one that is asked for, if it is there.
#[tactic(auto, using(crate::proofs::Laws::none_answer, crate::proofs::Laws::none_after), unfolding(crate::specs::StringText::either_text, crate::specs::StringText::utf8_numbered, crate::specs::StringText::string_text))]
fn write_numbered(out: &mut [u8], msg: &[u8], m: NlAuth, which: u32) -> Result<usize, Refusal>
    ensures answer { result ≡ bytes_answer (string_text msg.now m which) out.old }
    ensures content { out.new ≡ bytes_after (string_text msg.now m which) out.old }
{
    let s = m.strings;
    match which {
        1 if m.flags.nb_domain() => write_text(out, msg, false, s.nb_domain),
        2 if m.flags.nb_computer() => write_text(out, msg, false, s.nb_computer),
        3 if m.flags.dns_domain() => write_text(out, msg, true, s.dns_domain),
        4 if m.flags.dns_host() => write_text(out, msg, true, s.dns_host),
        5 if m.flags.utf8_computer() => write_text(out, msg, true, s.utf8_computer),
        _ => Ok(0),
    }
}

// Reads NL_AUTH and writes the text of string `which`, A = 1 to E = 5: its length, or the refusal with the output as it was.
// The text of a string that isn't there, and of any other number, is empty.
#[tactic(auto, unfolding(crate::specs::StringText::text_answer, crate::specs::StringText::text_after))]
pub fn write(msg: &[u8], which: u32, out: &mut [u8]) -> Result<usize, Refusal>
    ensures answer { result ≡ text_answer msg.now which out.old }
    ensures content { out.new ≡ text_after msg.now which out.old }
{
    let m = read_nl_auth::read(msg)?;
    write_numbered(out, msg, m, which)
}
