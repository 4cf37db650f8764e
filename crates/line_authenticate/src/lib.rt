// The line of an AUTHENTICATE message that was taken.
#![tactic(auto)]

ghost use Rattle.std.specs.Prelude.{◌≡◌, ◌+◌, ◌-◌, ◌≤◌, length, Ok};
ghost use Rattle.negotiate_flags.specs.Flags.{unicode};
ghost use Rattle.read_authenticate.specs.Authenticate.{read_authenticate};
ghost use Rattle.place.specs.Place.{Wrote};
ghost use Rattle.place.specs.Written.{room_holds, bytes_answer, bytes_after};
ghost use Rattle.line_words.specs.Words.{Room, mic_word, kind_word};
ghost use Rattle.line_authenticate.specs.Auth.{auth_names, auth_lengths, auth_end, auth_text};

use field::Field;
use line_max::put_max;
use line_words::name::Names;
use line_words::words::{
    put_name_word, put_number_word, put_start, room_after_name_word, room_after_number_word,
    surely_fits,
};
use place::Place;
use place::written::room_holds;
use read_authenticate::{Authenticate, Fields};
use wire::check::Checked;
use wire::refusal::Refusal;

// What the names leave of a room.
fn room_after_names(
    room: usize,
    names: Names,
    domain: Field,
    user: Field,
    workstation: Field,
) -> usize
    ensures { result ≡ room - length (auth_names names.entry.unicode names.entry.msg.now domain user workstation) }
{
    let left = room_after_name_word(room, b" domain=", names, domain);
    let left = room_after_name_word(left, b" user=", names, user);
    room_after_name_word(left, b" work=", names, workstation)
}

// What the lengths leave of a room.
fn room_after_lengths(room: usize, lm: u16, nt: u16, key: u16) -> usize
    ensures { result ≡ room - length (auth_lengths lm nt key) }
{
    let left = room_after_number_word(room, b" lm=", lm as u32);
    let left = room_after_number_word(left, b" nt=", nt as u32);
    room_after_number_word(left, b" key=", key as u32)
}

fn kind_size(nt: u16) -> usize
    ensures { (result ≡ length (kind_word nt)) × (result ≤ 10) }
{
    if nt == 0 {
        return 10;
    }
    if nt == 24 {
        return 8;
    }
    if nt < 44 {
        return 9;
    }
    8
}

// The most bytes that a line has besides its names: 25 for the start, 20 for the names' labels, 13 for the lengths' labels and 15 for
// their digits, 6 for the MIC's word, 10 for the kind's, 12 for the last word and the line's end. It is the same for all lengths:
// they are here for the contract alone.
fn most_besides_names(lm: u16, nt: u16, key: u16) -> u16
    ensures { 73 + length (auth_lengths lm nt key) ≤ result }
{
    101
}

// Check 33. Where the line doesn't surely fit, it is measured, by what the names and the lengths leave of the room: 25 for the
// start, 6 for the MIC's word, the kind's word and 12 for the last word and the line's end.
fn fits(msg: &[u8], a: Authenticate, room: usize) -> Checked
    ensures { result ≡ room_holds (length (auth_text msg.now a)) room }
{
    let f = a.fields;
    let others = most_besides_names(f.lm.len, f.nt.len, f.key.len);
    if surely_fits(others, f.domain.len, f.user.len, f.workstation.len, room) {
        return Checked::Held;
    }
    let unicode = a.flags.unicode();
    let names = Names { msg, unicode };
    let left = room_after_names(room, names, f.domain, f.user, f.workstation);
    let left = room_after_lengths(left, f.lm.len, f.nt.len, f.key.len);
    room_holds(25 + 6 + kind_size(f.nt.len) + 12, left)
}

fn put_names(
    p: Place,
    out: &mut [u8],
    names: Names,
    domain: Field,
    user: Field,
    workstation: Field,
) -> Place
    requires { Room p.at (auth_names names.unicode names.msg.now domain user workstation) (length out.old) }
    ensures { Wrote out.old out.new p.at result.at (auth_names names.entry.unicode names.entry.msg.now domain user workstation) }
{
    let p = put_name_word(p, out, b" domain=", names, domain);
    let p = put_name_word(p, out, b" user=", names, user);
    put_name_word(p, out, b" work=", names, workstation)
}

fn put_lengths(p: Place, out: &mut [u8], lm: u16, nt: u16, key: u16) -> Place
    requires { Room p.at (auth_lengths lm nt key) (length out.old) }
    ensures { Wrote out.old out.new p.at result.at (auth_lengths lm nt key) }
{
    let p = put_number_word(p, out, b" lm=", lm as u32);
    let p = put_number_word(p, out, b" nt=", nt as u32);
    put_number_word(p, out, b" key=", key as u32)
}

fn put_mic(p: Place, out: &mut [u8], present: bool) -> Place
    requires { Room p.at (mic_word present) (length out.old) }
    ensures { Wrote out.old out.new p.at result.at (mic_word present) }
{
    if present {
        return p.put_bytes(out, b" mic=1");
    }
    p.put_bytes(out, b" mic=0")
}

fn put_kind(p: Place, out: &mut [u8], nt: u16) -> Place
    requires { Room p.at (kind_word nt) (length out.old) }
    ensures { Wrote out.old out.new p.at result.at (kind_word nt) }
{
    if nt == 0 {
        return p.put_bytes(out, b" kind=none");
    }
    if nt == 24 {
        return p.put_bytes(out, b" kind=v1");
    }
    if 44 <= nt {
        return p.put_bytes(out, b" kind=v2");
    }
    p.put_bytes(out, b" kind=odd")
}

fn put_end(p: Place, out: &mut [u8], mic: bool, f: Fields) -> Place
    requires { Room p.at (auth_end mic f) (length out.old) }
    ensures { Wrote out.old out.new p.at result.at (auth_end mic f) }
{
    let p = put_mic(p, out, mic);
    let p = put_kind(p, out, f.nt.len);
    let fields = [f.lm, f.nt, f.domain, f.user, f.workstation, f.key];
    put_max(p, out, &fields)
}

fn put(out: &mut [u8], msg: &[u8], a: Authenticate, wide: bool) -> Place
    requires wide_value { wide ≡ unicode a.flags }
    requires room { Room 0 (auth_text msg.now a) (length out.old) }
    ensures { Wrote out.old out.new 0 result.at (auth_text msg.now a) }
{
    let f = a.fields;
    let p = put_start(out, b"auth", a.flags, wide);
    let names = Names { msg, unicode: wide };
    let p = put_names(p, out, names, f.domain, f.user, f.workstation);
    let p = put_lengths(p, out, f.lm.len, f.nt.len, f.key.len);
    put_end(p, out, a.mic_present, f)
}

// The line of `a`, which was read from the message: a record that wasn't could show a secret's bytes as a name's.
pub fn write(out: &mut [u8], msg: &[u8], a: Authenticate) -> Result<usize, Refusal>
    requires { (read_authenticate msg.now).reading ≡ Ok a }
    ensures answer { result ≡ bytes_answer (auth_text msg.now a) out.old }
    ensures content { out.new ≡ bytes_after (auth_text msg.now a) out.old }
{
    let Checked::Held = fits(msg, a, out.len()) else {
        return Err(Refusal::NoRoom);
    };
    let p = put(out, msg, a, a.flags.unicode());
    Ok(p.at)
}
