// The line of a refusal.
#![tactic(auto)]

ghost use Rattle.std.specs.Prelude.{◌≡◌, ◌<◌, ◌^◌, length};
ghost use Rattle.wire.specs.Refusal.{place_of};
ghost use Rattle.place.specs.Place.{Wrote};
ghost use Rattle.line_words.specs.Words.{Room};
ghost use Rattle.line_refused.specs.Refused.{refused_end, refused_text, refused_line};
ghost use Rattle.place.specs.Written.{room_holds, bytes_answer, bytes_after};

use line_words::words::{put_number_word, room_after_number_word};
use place::Place;
use place::written::room_holds;
use wire::check::Checked;
use wire::refusal::Refusal;

// A refusal's numbers, as its line shows them.
#[derive(Clone, Copy)]
struct Shown {
    number: u8,
    field: u8,
    place: u32,
}

impl Shown {
    // Check 33, by what the words leave of the room: the line's end is still to come.
    #[tactic(auto, using(crate::proofs::Laws::refused_fits))]
    fn fits(self, room: usize) -> Checked
        ensures { result ≡ room_holds (length (refused_text self.number self.field self.place)) room }
    {
        let left = room_after_number_word(room, b"refused ", u32::from(self.number));
        let left = room_after_number_word(left, b" field=", u32::from(self.field));
        let left = room_after_number_word(left, b" at=", self.place);
        room_holds(1, left)
    }

    #[tactic(auto, using(line_words::proofs::Rooms::parts), unfolding(crate::specs::Refused::refused_end))]
    fn put_end(self, p: Place, out: &mut [u8]) -> Place
        requires { Room p.at (refused_end self.place) (length out.old) }
        ensures { Wrote out.old out.new p.at result.at (refused_end self.place) }
    {
        let p = put_number_word(p, out, b" at=", self.place);
        p.put_u8(out, b'\n')
    }

    #[tactic(auto, using(line_words::proofs::Rooms::parts3), unfolding(crate::specs::Refused::refused_text))]
    fn put(self, out: &mut [u8]) -> Place
        requires { Room 0 (refused_text self.number self.field self.place) (length out.old) }
        ensures { Wrote out.old out.new 0 result.at (refused_text self.number self.field self.place) }
    {
        let p = Place { at: 0 };
        let p = put_number_word(p, out, b"refused ", u32::from(self.number));
        let p = put_number_word(p, out, b" field=", u32::from(self.field));
        self.put_end(p, out)
    }
}

// The line of a refusal whose place has 32 bits, as that of every message has.
#[tactic(auto, using(line_words::proofs::Calls::has_room), unfolding(crate::specs::Refused::refused_line, place::specs::Written::bytes_answer, place::specs::Written::bytes_after))]
pub fn write(out: &mut [u8], e: Refusal) -> Result<usize, Refusal>
    requires { place_of e < 2 ^ 32 }
    ensures answer { result ≡ bytes_answer (refused_line e) out.old }
    ensures content { out.new ≡ bytes_after (refused_line e) out.old }
{
    let shown = Shown {
        number: e.number(),
        field: e.field(),
        place: e.place() as u32,
    };
    let Checked::Held = shown.fits(out.len()) else {
        return Err(Refusal::NoRoom);
    };
    let end = shown.put(out);
    Ok(end.at)
}
