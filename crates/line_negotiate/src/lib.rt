// The line of a NEGOTIATE message that was taken.
#![tactic(auto)]

ghost use Rattle.std.specs.Prelude.{◌≡◌, ◌-◌, length, Ok};
ghost use Rattle.place.specs.Place.{Wrote};
ghost use Rattle.place.specs.Written.{room_holds, bytes_answer, bytes_after};
ghost use Rattle.line_words.specs.Words.{Room};
ghost use Rattle.read_negotiate.specs.Negotiate.{read_negotiate};
ghost use Rattle.line_negotiate.specs.Nego.{nego_names, nego_text};

use line_max::put_max;
use line_words::name::Names;
use line_words::words::{put_flags_word, put_name_word, room_after_name_word, surely_fits};
use place::Place;
use place::written::room_holds;
use read_negotiate::Negotiate;
use wire::check::Checked;
use wire::refusal::Refusal;

// What the names leave of a room. Their units are bytes, also where UNICODE is set.
fn room_after_names(room: usize, msg: &[u8], m: Negotiate) -> usize
    ensures { result ≡ room - length (nego_names msg.now m) }
{
    let f = m.fields;
    let names = Names {
        msg,
        unicode: false,
    };
    let left = room_after_name_word(room, b" domain=", names, f.domain);
    room_after_name_word(left, b" work=", names, f.workstation)
}

// Check 33. Besides the names a line has 41 bytes, 14 of them for the names' labels. Where it doesn't surely fit, it is measured,
// by what the names leave of the room: 19 for the start and 8 for the last word and the line's end.
fn fits(msg: &[u8], m: Negotiate, room: usize) -> Checked
    ensures { result ≡ room_holds (length (nego_text msg.now m)) room }
{
    let f = m.fields;
    if surely_fits(41, f.domain.len, f.workstation.len, 0, room) {
        return Checked::Held;
    }
    room_holds(19 + 8, room_after_names(room, msg, m))
}

fn put_names(p: Place, out: &mut [u8], msg: &[u8], m: Negotiate) -> Place
    requires { Room p.at (nego_names msg.now m) (length out.old) }
    ensures { Wrote out.old out.new p.at result.at (nego_names msg.now m) }
{
    let f = m.fields;
    let names = Names {
        msg,
        unicode: false,
    };
    let p = put_name_word(p, out, b" domain=", names, f.domain);
    put_name_word(p, out, b" work=", names, f.workstation)
}

fn put(out: &mut [u8], msg: &[u8], m: Negotiate) -> Place
    requires { Room 0 (nego_text msg.now m) (length out.old) }
    ensures { Wrote out.old out.new 0 result.at (nego_text msg.now m) }
{
    let p = Place { at: 0 }.put_bytes(out, b"nego");
    let p = put_flags_word(p, out, m.flags.bits);
    let p = put_names(p, out, msg, m);
    put_max(p, out, &[m.fields.domain, m.fields.workstation])
}

// The line of `m`, which was read from the message.
pub fn write(out: &mut [u8], msg: &[u8], m: Negotiate) -> Result<usize, Refusal>
    requires { read_negotiate msg.now ≡ Ok m }
    ensures answer { result ≡ bytes_answer (nego_text msg.now m) out.old }
    ensures content { out.new ≡ bytes_after (nego_text msg.now m) out.old }
{
    let Checked::Held = fits(msg, m, out.len()) else {
        return Err(Refusal::NoRoom);
    };
    let p = put(out, msg, m);
    Ok(p.at)
}
