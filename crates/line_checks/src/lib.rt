// The lines of a message's checks, one to a line.
#![tactic(auto)]

ghost use Rattle.std.specs.Prelude.{◌≡◌, ◌-◌, length};
ghost use Rattle.place.specs.Place.{Wrote};
ghost use Rattle.place.specs.Written.{room_holds, bytes_answer, bytes_after};
ghost use Rattle.line_words.specs.Words.{Room};
ghost use Rattle.line_checks.specs.Checks.{plain_words, about_pair, pair_figures, pair_words, message_words, figure_words, failed_words, words_of, check_line, check_lines};

use field::Field;
use line_words::words::{put_number_word, room_after_number_word};
use place::Place;
use place::written::room_after;
use wire::check::Checked;
use wire::refusal::Refusal;

// What the print shows of the check that failed; all are 0 where none did.
#[derive(Clone, Copy, Default)]
pub struct Figures {
    pub number: u8,
    pub field: u8,
    // The field's own head, and the message's length, as far as 65,536.
    pub head: Field,
    pub message: u32,
    // Of the pair that failed: its place in the message, its id and its length number.
    pub at: u32,
    pub id: u16,
    pub size: u16,
}

// Whether a check is about a pair: 10 to 13.
pub fn about_pair(n: u8) -> bool
    ensures { result ≡ about_pair n }
{
    (10 <= n) & (n <= 13)
}

// ---- what the words leave of a room: nothing where they pass it

fn room_after_plain(room: usize, n: u8, word: &[u8]) -> usize
    ensures { result ≡ room - length (plain_words n word.now) }
{
    room_after(
        room_after_number_word(room, b"check ", n as u32),
        word.len(),
    )
}

fn room_after_pair(room: usize, f: Figures) -> usize
    ensures { result ≡ room - length (pair_words f) }
{
    if about_pair(f.number) {
        let left = room_after_number_word(room, b" at=", f.at);
        let left = room_after_number_word(left, b" id=", f.id as u32);
        return room_after_number_word(left, b" size=", f.size as u32);
    }
    room
}

fn room_after_message(room: usize, f: Figures) -> usize
    ensures { result ≡ room - length (message_words f) }
{
    room_after_pair(room_after_number_word(room, b" message=", f.message), f)
}

fn room_after_figures(room: usize, f: Figures) -> usize
    ensures { result ≡ room - length (figure_words f) }
{
    let left = room_after_number_word(room, b" offset=", f.head.offset);
    let left = room_after_number_word(left, b" length=", f.head.len as u32);
    room_after_message(left, f)
}

fn room_after_failed(room: usize, f: Figures) -> usize
    ensures { result ≡ room - length (failed_words f) }
{
    let left = room_after_number_word(room, b"check ", f.number as u32);
    let left = room_after_number_word(left, b" failed field=", f.field as u32);
    room_after_figures(left, f)
}

fn room_after_words(room: usize, reached: bool, f: Figures, n: u8) -> usize
    ensures { result ≡ room - length (words_of reached f n) }
{
    if reached {
        if n == f.number {
            return room_after_failed(room, f);
        }
        return room_after_plain(room, n, b" held");
    }
    room_after_plain(room, n, b" not reached")
}

// Check 33, line by line: what is left after a line's words has to have room for its end.
fn lines_fit(checks: &[u8], f: Figures, room: usize) -> Checked
    ensures { result ≡ room_holds (length (check_lines f checks.now)) room }
{
    let mut left = room;
    let mut reached = true;
    for &n in checks {
        left = room_after_words(left, reached, f, n);
        if left == 0 {
            return Checked::Failed;
        }
        left = left - 1;
        reached = reached & (n != f.number);
    }
    Checked::Held
}

// Check 33. The line of the check that failed has at most 111 bytes, and every other line at most 22. So thirteen lines have at most
// 12 * 22 + 111 bytes: with that much room they aren't measured.
fn fits(checks: &[u8], f: Figures, room: usize) -> Checked
    ensures { result ≡ room_holds (length (check_lines f checks.now)) room }
{
    if (checks.len() <= 13) & (12 * 22 + 111 <= room) {
        return Checked::Held;
    }
    lines_fit(checks, f, room)
}

// ---- the words

fn put_plain(p: Place, out: &mut [u8], n: u8, word: &[u8]) -> Place
    requires { Room p.at (plain_words n word.now) (length out.old) }
    ensures { Wrote out.old out.new p.at result.at (plain_words n word.now) }
{
    let p = put_number_word(p, out, b"check ", n as u32);
    p.put_bytes(out, word)
}

fn put_pair_text(p: Place, out: &mut [u8], f: Figures) -> Place
    requires { Room p.at (pair_figures f) (length out.old) }
    ensures { Wrote out.old out.new p.at result.at (pair_figures f) }
{
    let p = put_number_word(p, out, b" at=", f.at);
    let p = put_number_word(p, out, b" id=", f.id as u32);
    put_number_word(p, out, b" size=", f.size as u32)
}

fn put_pair(p: Place, out: &mut [u8], f: Figures) -> Place
    requires { Room p.at (pair_words f) (length out.old) }
    ensures { Wrote out.old out.new p.at result.at (pair_words f) }
{
    if about_pair(f.number) {
        return put_pair_text(p, out, f);
    }
    p
}

fn put_message(p: Place, out: &mut [u8], f: Figures) -> Place
    requires { Room p.at (message_words f) (length out.old) }
    ensures { Wrote out.old out.new p.at result.at (message_words f) }
{
    let p = put_number_word(p, out, b" message=", f.message);
    put_pair(p, out, f)
}

fn put_figures(p: Place, out: &mut [u8], f: Figures) -> Place
    requires { Room p.at (figure_words f) (length out.old) }
    ensures { Wrote out.old out.new p.at result.at (figure_words f) }
{
    let p = put_number_word(p, out, b" offset=", f.head.offset);
    let p = put_number_word(p, out, b" length=", f.head.len as u32);
    put_message(p, out, f)
}

fn put_failed(p: Place, out: &mut [u8], f: Figures) -> Place
    requires { Room p.at (failed_words f) (length out.old) }
    ensures { Wrote out.old out.new p.at result.at (failed_words f) }
{
    let p = put_number_word(p, out, b"check ", f.number as u32);
    let p = put_number_word(p, out, b" failed field=", f.field as u32);
    put_figures(p, out, f)
}

fn put_words(p: Place, out: &mut [u8], reached: bool, f: Figures, n: u8) -> Place
    requires { Room p.at (words_of reached f n) (length out.old) }
    ensures { Wrote out.old out.new p.at result.at (words_of reached f n) }
{
    if reached {
        if n == f.number {
            return put_failed(p, out, f);
        }
        return put_plain(p, out, n, b" held");
    }
    put_plain(p, out, n, b" not reached")
}

fn put_line(p: Place, out: &mut [u8], reached: bool, f: Figures, n: u8) -> Place
    requires { Room p.at (check_line reached f n) (length out.old) }
    ensures { Wrote out.old out.new p.at result.at (check_line reached f n) }
{
    let p = put_words(p, out, reached, f, n);
    p.put_u8(out, b'\n')
}

fn put(out: &mut [u8], checks: &[u8], f: Figures) -> Place
    requires { Room 0 (check_lines f checks.now) (length out.old) }
    ensures { Wrote out.old out.new 0 result.at (check_lines f checks.now) }
{
    let mut p = Place { at: 0 };
    let mut reached = true;
    for &check in checks {
        p = put_line(p, out, reached, f, check);
        reached = reached & (check != f.number);
    }
    p
}

// The lines of these checks, given the figures of the one that failed, at the start of the output: their length, or 33 with the
// output as it was.
pub fn write(out: &mut [u8], checks: &[u8], f: Figures) -> Result<usize, Refusal>
    ensures answer { result ≡ bytes_answer (check_lines f checks.now) out.old }
    ensures content { out.new ≡ bytes_after (check_lines f checks.now) out.old }
{
    let Checked::Held = fits(checks, f, out.len()) else {
        return Err(Refusal::NoRoom);
    };
    let p = put(out, checks, f);
    Ok(p.at)
}
