// The line of a CHALLENGE message that was taken.
#![tactic(auto)]

ghost use Rattle.std.specs.Prelude.{◌≡◌, ◌+◌, ◌≤◌, length, Ok};
ghost use Rattle.place.specs.Place.{Wrote};
ghost use Rattle.place.specs.Written.{room_holds, bytes_answer, bytes_after};
ghost use Rattle.line_words.specs.Words.{Room};
ghost use Rattle.read_challenge.specs.Challenge.{full_reading_of};
ghost use Rattle.line_challenge.specs.Chal.{time_text, time_word, chal_end, chal_words, chal_text};

use line_max::put_max;
use line_words::digits::put_hex;
use line_words::name::Names;
use line_words::words::{
    put_name_word, put_number_word, put_start, room_after_name_word, room_after_number_word,
};
use place::Place;
use place::written::room_holds;
use read_challenge::{Challenge, Fields, FullChallenge};
use wire::check::Checked;
use wire::refusal::Refusal;

fn time_size(time: Option<u64>) -> usize
    ensures { (result ≡ length (time_word time)) × (result ≤ 22) }
{
    let Some(_) = time else {
        return 0;
    };
    22
}

// Check 33, by what the name and the count leave of the room: 25 for the start, the time's word and 8 for
// the last word and the line's end.
fn fits(
    msg: &[u8],
    c: Challenge,
    unicode: bool,
    pairs: u32,
    time: Option<u64>,
    room: usize,
) -> Checked
    ensures { result ≡ room_holds (length (chal_words unicode msg.now c pairs time)) room }
{
    let names = Names { msg, unicode };
    let left = room_after_name_word(room, b" target=", names, c.fields.target_name);
    let left = room_after_number_word(left, b" pairs=", pairs);
    room_holds(25 + time_size(time) + 8, left)
}

fn put_time_text(p: Place, out: &mut [u8], t: u64) -> Place
    requires { Room p.at (time_text t) (length out.old) }
    ensures { Wrote out.old out.new p.at result.at (time_text t) }
{
    let p = p.put_bytes(out, b" time=");
    let at = p.at;
    let digits = put_hex(&mut out[at..], t, 16);
    Place { at: at + digits.at }
}

fn put_time(p: Place, out: &mut [u8], time: Option<u64>) -> Place
    requires { Room p.at (time_word time) (length out.old) }
    ensures { Wrote out.old out.new p.at result.at (time_word time) }
{
    let Some(t) = time else {
        return p;
    };
    put_time_text(p, out, t)
}

fn put_end(p: Place, out: &mut [u8], pairs: u32, time: Option<u64>, f: Fields) -> Place
    requires { Room p.at (chal_end pairs time f) (length out.old) }
    ensures { Wrote out.old out.new p.at result.at (chal_end pairs time f) }
{
    let p = put_number_word(p, out, b" pairs=", pairs);
    let p = put_time(p, out, time);
    put_max(p, out, &[f.target_name, f.target_info])
}

fn put(
    out: &mut [u8],
    msg: &[u8],
    c: Challenge,
    unicode: bool,
    pairs: u32,
    time: Option<u64>,
) -> Place
    requires { Room 0 (chal_words unicode msg.now c pairs time) (length out.old) }
    ensures { Wrote out.old out.new 0 result.at (chal_words unicode msg.now c pairs time) }
{
    let p = put_start(out, b"chal", c.flags, unicode);
    let names = Names { msg, unicode };
    let p = put_name_word(p, out, b" target=", names, c.fields.target_name);
    put_end(p, out, pairs, time, c.fields)
}

fn write_words(
    out: &mut [u8],
    msg: &[u8],
    c: Challenge,
    unicode: bool,
    pairs: u32,
    time: Option<u64>,
) -> Result<usize, Refusal>
    ensures answer { result ≡ bytes_answer (chal_words unicode msg.now c pairs time) out.old }
    ensures content { out.new ≡ bytes_after (chal_words unicode msg.now c pairs time) out.old }
{
    let Checked::Held = fits(msg, c, unicode, pairs, time, out.len()) else {
        return Err(Refusal::NoRoom);
    };
    let p = put(out, msg, c, unicode, pairs, time);
    Ok(p.at)
}

// The line of `f`, which the reader made of the message. Its list has at most 65,535 bytes, and no more pairs.
pub fn write(out: &mut [u8], msg: &[u8], f: FullChallenge) -> Result<usize, Refusal>
    requires { full_reading_of msg.now ≡ Ok f }
    ensures answer { result ≡ bytes_answer (chal_text msg.now f.challenge) out.old }
    ensures content { out.new ≡ bytes_after (chal_text msg.now f.challenge) out.old }
{
    let c = f.challenge;
    let contents = f.contents;
    let time = contents.timestamp;
    write_words(out, msg, c, c.flags.unicode(), contents.pairs as u32, time)
}
