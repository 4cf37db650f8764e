// The line of an NL_AUTH message that was taken.
#![tactic(auto)]

ghost use Rattle.std.specs.Prelude.{◌≡◌, ◌++◌, ◌+◌, ◌-◌, ◌≤◌, length, Ok};
ghost use Rattle.place.specs.Place.{Wrote};
ghost use Rattle.place.specs.Written.{room_holds, bytes_answer, bytes_after};
ghost use Rattle.wire.specs.Text.{ascii};
ghost use Rattle.line_words.specs.Words.{Room, number_word};
ghost use Rattle.line_nl_auth.specs.NlWord.{word_text};
ghost use Rattle.read_nl_auth.specs.NlAuth.{read_nl_auth};
ghost use Rattle.line_nl_auth.specs.Nl.{nl_start, nl_oem, nl_utf8, nl_text};

use line_nl_string::{put_text, room_after_text};
use line_words::words::{put_flags_word, put_number_word, room_after_number_word, surely_fits};
use place::Place;
use place::written::{room_after, room_holds};
use read_nl_auth::NlAuth;
use read_nl_auth::string::NlString;
use wire::check::Checked;
use wire::refusal::Refusal;

// The word of a string of a message; it is left out where the string's bit is clear. `utf8` is set for strings C, D and E.
#[derive(Clone, Copy)]
struct Word<'a> {
    label: [u8; 3],
    msg: &'a [u8],
    given: bool,
    utf8: bool,
    string: NlString,
}

impl Word<'_> {
    // What the word leaves of a room.
    #[tactic(auto, unfolding(crate::specs::NlWord::word_text, line_words::specs::Words::string_word))]
    fn room_after(self, room: usize) -> usize
        ensures { result ≡ room - length (word_text self.entry) }
    {
        if self.given {
            let room = room_after(room, self.label.len());
            return room_after_text(room, self.msg, self.utf8, self.string);
        }
        room
    }

    // The word, from `p` on.
    #[tactic(auto, unfolding(crate::specs::NlWord::word_text, line_words::specs::Words::string_word))]
    fn put(self, p: Place, out: &mut [u8]) -> Place
        requires { Room p.at (word_text self) (length out.old) }
        ensures { Wrote out.old out.new p.at result.at (word_text self.entry) }
    {
        if !self.given {
            return p;
        }
        let p = p.put_bytes(out, &self.label);
        let at = p.at;
        let text = put_text(&mut out[at..], self.msg, self.utf8, self.string);
        Place { at: at + text.at }
    }
}

// The OEM strings' words, A and B.
#[tactic(auto, unfolding(crate::specs::NlWord::word_text, crate::specs::Nl::nl_oem, line_nl_string::specs::StringText::either_text))]
fn oem_words(msg: &[u8], m: NlAuth) -> (Word<'_>, Word<'_>)
    ensures { word_text result.0 ++ word_text result.1 ≡ nl_oem msg.entry.now m }
{
    let a = Word {
        label: *b" a=",
        msg,
        given: m.flags.nb_domain(),
        utf8: false,
        string: m.strings.nb_domain,
    };
    let b = Word {
        label: *b" b=",
        given: m.flags.nb_computer(),
        string: m.strings.nb_computer,
        ..a
    };
    (a, b)
}

// The UTF-8 strings' words, C to E.
#[tactic(auto, unfolding(crate::specs::NlWord::word_text, crate::specs::Nl::nl_utf8, line_nl_string::specs::StringText::either_text))]
fn utf8_words(msg: &[u8], m: NlAuth) -> (Word<'_>, Word<'_>, Word<'_>)
    ensures { word_text result.0 ++ (word_text result.1 ++ word_text result.2) ≡ nl_utf8 msg.entry.now m }
{
    let c = Word {
        label: *b" c=",
        msg,
        given: m.flags.dns_domain(),
        utf8: true,
        string: m.strings.dns_domain,
    };
    let d = Word {
        label: *b" d=",
        given: m.flags.dns_host(),
        string: m.strings.dns_host,
        ..c
    };
    let e = Word {
        label: *b" e=",
        given: m.flags.utf8_computer(),
        string: m.strings.utf8_computer,
        ..c
    };
    (c, d, e)
}

// What the strings' words leave of a room.
fn room_after_words(room: usize, msg: &[u8], m: NlAuth) -> usize
    ensures { result ≡ room - (length (nl_oem msg.now m) + length (nl_utf8 msg.now m)) }
{
    let (a, b) = oem_words(msg, m);
    let (c, d, e) = utf8_words(msg, m);
    let left = b.room_after(a.room_after(room));
    e.room_after(d.room_after(c.room_after(left)))
}

// The most bytes that a line has besides strings A and B: 18 for the type's word, 15 for the flags', 3 for each of the five labels,
// 1,020 for each of the names C to E (four for each of its 255 bytes), 1 for the line's end. It is the same for all types: the type
// is here for the contract alone.
fn most_besides_oem(message_type: u32) -> u16
    ensures { 3091 + length (number_word (ascii "nl type=") message_type) ≤ result }
{
    3109
}

// Check 33. Where the line doesn't surely fit, it is measured, by what the type's word and the strings leave of the room: 15 for
// the flags' word and 1 for the line's end.
fn fits(msg: &[u8], m: NlAuth, room: usize) -> Checked
    ensures { result ≡ room_holds (length (nl_text msg.now m)) room }
{
    let s = m.strings;
    let others = most_besides_oem(m.message_type);
    if surely_fits(others, s.nb_domain.len, s.nb_computer.len, 0, room) {
        return Checked::Held;
    }
    let left = room_after_number_word(room, b"nl type=", m.message_type);
    room_holds(15 + 1, room_after_words(left, msg, m))
}

#[tactic(auto, unfolding(crate::specs::Nl::nl_start))]
fn put_start(out: &mut [u8], message_type: u32, bits: u32) -> Place
    requires { Room 0 (nl_start message_type bits) (length out.old) }
    ensures { Wrote out.old out.new 0 result.at (nl_start message_type bits) }
{
    let p = Place { at: 0 };
    let p = put_number_word(p, out, b"nl type=", message_type);
    put_flags_word(p, out, bits)
}

fn put_oem(p: Place, out: &mut [u8], msg: &[u8], m: NlAuth) -> Place
    requires { Room p.at (nl_oem msg.now m) (length out.old) }
    ensures { Wrote out.old out.new p.at result.at (nl_oem msg.now m) }
{
    let (a, b) = oem_words(msg, m);
    let p = a.put(p, out);
    b.put(p, out)
}

fn put_utf8(p: Place, out: &mut [u8], msg: &[u8], m: NlAuth) -> Place
    requires { Room p.at (nl_utf8 msg.now m) (length out.old) }
    ensures { Wrote out.old out.new p.at result.at (nl_utf8 msg.now m) }
{
    let (c, d, e) = utf8_words(msg, m);
    let p = c.put(p, out);
    let p = d.put(p, out);
    e.put(p, out)
}

#[tactic(auto, unfolding(crate::specs::Nl::nl_text))]
fn put(out: &mut [u8], msg: &[u8], m: NlAuth) -> Place
    requires { Room 0 (nl_text msg.now m) (length out.old) }
    ensures { Wrote out.old out.new 0 result.at (nl_text msg.now m) }
{
    let p = put_start(out, m.message_type, m.flags.bits);
    let p = put_oem(p, out, msg, m);
    let p = put_utf8(p, out, msg, m);
    p.put_u8(out, b'\n')
}

// The line of `m`, which was read from the message.
pub fn write(out: &mut [u8], msg: &[u8], m: NlAuth) -> Result<usize, Refusal>
    requires { read_nl_auth msg.now ≡ Ok m }
    ensures answer { result ≡ bytes_answer (nl_text msg.now m) out.old }
    ensures content { out.new ≡ bytes_after (nl_text msg.now m) out.old }
{
    let Checked::Held = fits(msg, m, out.len()) else {
        return Err(Refusal::NoRoom);
    };
    Ok(put(out, msg, m).at)
}
