// NL_AUTH_MESSAGE (MS-NRPC 2.2.1.3.1): writing. The strings of bits A to E are lent as `a` to `e`;
// C, D and E are texts, written as names by RFC 1035.
#![tactic(auto)]

ghost use Rattle.std.specs.Prelude.{◌≡◌, ◌+◌, ◌≤◌, min, length, Ok};
ghost use Rattle.wire.specs.declared.check.Checked.TheVariants.{Held};
ghost use Rattle.place.specs.Place.{Wrote};
ghost use Rattle.place.specs.Written.{at_front};
ghost use Rattle.nl_auth_flags.specs.Flags.{nb_domain, nb_computer, dns_domain, dns_host, utf8_computer, known};
ghost use Rattle.write_dns_name.specs.Writing.{text_holds};
ghost use Rattle.write_nl_auth.specs.Writing.{type_and_flags, zero_terminated, bytes_under, oem_bytes, name_bytes_under, utf8_bytes, request_bytes};
ghost use Rattle.write_nl_auth.specs.Strings.{of_strings, of_names};
ghost use Rattle.write_nl_auth.specs.Writing.{no_zero, check_zeros, check_labels, check_coded, check_strings, under, check_under};
ghost use Rattle.write_nl_auth.specs.Writing.{check_request, request_answer, request_out, response_answer, response_out};

use nl_auth_flags::NlAuthFlags;
use place::Place;
use place::written::{add_capped, room_holds, size_holds};
use read_nl_auth::NlAuth;
use read_nl_auth::string::string_length;
use wire::check::{Checked, check};
use wire::refusal::Refusal;
use write_dns_name::{coded_holds, coded_size, put_name, text_holds};

// The strings of bits A to E, as they are lent; C, D and E are texts.
#[derive(Clone, Copy)]
struct Strings<'a> {
    a: &'a [u8],
    b: &'a [u8],
    c: &'a [u8],
    d: &'a [u8],
    e: &'a [u8],
}

// Check 34 at one string.
fn no_zero(string: &[u8]) -> Checked
    ensures { result ≡ no_zero string.now }
{
    check(!(string_length(string) < string.len()))
}

// The string of a bit; where that is clear, the empty part, at which no check of a string fails.
#[tactic(auto, unfolding(crate::specs::Writing::under))]
fn under(set: bool, string: &[u8]) -> &[u8]
    ensures { result.now ≡ under set string.now }
{
    if set {
        return string;
    }
    &string[..0]
}

impl<'a> Strings<'a> {
    // Check 34, A first.
    #[tactic(auto, unfolding(crate::specs::Writing::check_zeros))]
    fn check_zeros(self) -> Result<(), Refusal>
        ensures { result ≡ of_strings self.entry check_zeros }
    {
        let Checked::Held = no_zero(self.a) else {
            return Err(Refusal::ZeroInString(1));
        };
        let Checked::Held = no_zero(self.b) else {
            return Err(Refusal::ZeroInString(2));
        };
        let Checked::Held = no_zero(self.c) else {
            return Err(Refusal::ZeroInString(3));
        };
        let Checked::Held = no_zero(self.d) else {
            return Err(Refusal::ZeroInString(4));
        };
        let Checked::Held = no_zero(self.e) else {
            return Err(Refusal::ZeroInString(5));
        };
        Ok(())
    }

    // Check 50, C first.
    #[tactic(auto, unfolding(crate::specs::Writing::check_labels))]
    fn check_labels(self) -> Result<(), Refusal>
        ensures { result ≡ of_names self.entry check_labels }
    {
        let Checked::Held = text_holds(self.c) else {
            return Err(Refusal::WrongLabel(3));
        };
        let Checked::Held = text_holds(self.d) else {
            return Err(Refusal::WrongLabel(4));
        };
        let Checked::Held = text_holds(self.e) else {
            return Err(Refusal::WrongLabel(5));
        };
        Ok(())
    }

    // Check 53, C first.
    #[tactic(auto, unfolding(crate::specs::Writing::check_coded))]
    fn check_coded(self) -> Result<(), Refusal>
        ensures { result ≡ of_names self.entry check_coded }
    {
        let Checked::Held = coded_holds(self.c) else {
            return Err(Refusal::NameTooLong(3));
        };
        let Checked::Held = coded_holds(self.d) else {
            return Err(Refusal::NameTooLong(4));
        };
        let Checked::Held = coded_holds(self.e) else {
            return Err(Refusal::NameTooLong(5));
        };
        Ok(())
    }

    // Checks 34, 50 and 53, each over all strings.
    #[tactic(auto, unfolding(crate::specs::Writing::check_strings))]
    fn check(self) -> Result<(), Refusal>
        ensures { result ≡ of_strings self.entry check_strings }
    {
        self.check_zeros()?;
        self.check_labels()?;
        self.check_coded()
    }

    // The strings of the set bits; in place of any other the empty part, at which no check of a string fails.
    fn under(self, flags: NlAuthFlags) -> Strings<'a>
        ensures a { result.a.now ≡ under (nb_domain flags) self.entry.a.now }
        ensures b { result.b.now ≡ under (nb_computer flags) self.entry.b.now }
        ensures c { result.c.now ≡ under (dns_domain flags) self.entry.c.now }
        ensures d { result.d.now ≡ under (dns_host flags) self.entry.d.now }
        ensures e { result.e.now ≡ under (utf8_computer flags) self.entry.e.now }
    {
        Strings {
            a: under(flags.nb_domain(), self.a),
            b: under(flags.nb_computer(), self.b),
            c: under(flags.dns_domain(), self.c),
            d: under(flags.dns_host(), self.d),
            e: under(flags.utf8_computer(), self.e),
        }
    }

    // The length of a request, as it is counted for check 30.
    #[tactic(auto, using(crate::proofs::Sent::size_is))]
    fn request_size(self, flags: NlAuthFlags) -> usize
        ensures { result ≡ min 65536 (length (of_strings self.entry (request_bytes flags))) }
    {
        let n = size_with(8, flags.nb_domain(), self.a);
        let n = size_with(n, flags.nb_computer(), self.b);
        let n = size_with_name(n, flags.dns_domain(), self.c);
        let n = size_with_name(n, flags.dns_host(), self.d);
        size_with_name(n, flags.utf8_computer(), self.e)
    }

    // Checks 14, 34, 50, 53, 30 and 33 of a request, for an output of `room` bytes.
    #[tactic(auto, using(place::proofs::Writings::measured), unfolding(crate::specs::Writing::check_request, crate::specs::Writing::check_under))]
    fn check_request(self, room: usize, flags: NlAuthFlags) -> Result<(), Refusal>
        ensures { result ≡ of_strings self.entry (check_request room flags) }
    {
        let Checked::Held = flags.strings_hold() else {
            return Err(Refusal::NoStrings);
        };
        self.under(flags).check()?;
        let n = self.request_size(flags);
        let Checked::Held = size_holds(n) else {
            return Err(Refusal::TooLongToWrite);
        };
        let Checked::Held = room_holds(n, room) else {
            return Err(Refusal::NoRoom);
        };
        Ok(())
    }

    // Strings A and B.
    #[tactic(auto, unfolding(crate::specs::Writing::oem_bytes))]
    fn put_oem(self, place: Place, out: &mut [u8], flags: NlAuthFlags) -> Place
        requires { place.at + length (oem_bytes flags self.a.now self.b.now) ≤ length out.old }
        ensures { Wrote out.old out.new place.at result.at (oem_bytes flags self.entry.a.now self.entry.b.now) }
    {
        let place = put_under(place, out, flags.nb_domain(), self.a);
        put_under(place, out, flags.nb_computer(), self.b)
    }

    // Strings C to E.
    #[tactic(auto, unfolding(crate::specs::Writing::utf8_bytes))]
    fn put_utf8(self, place: Place, out: &mut [u8], flags: NlAuthFlags) -> Place
        requires e_value { check_labels (under (dns_domain flags) self.c.now) (under (dns_host flags) self.d.now) (under (utf8_computer flags) self.e.now) ≡ Ok tt }
        requires e_in_bounds { place.at + length (of_names self (utf8_bytes flags)) ≤ length out.old }
        ensures { Wrote out.old out.new place.at result.at (of_names self.entry (utf8_bytes flags)) }
    {
        let place = put_name_under(place, out, flags.dns_domain(), self.c);
        let place = put_name_under(place, out, flags.dns_host(), self.d);
        put_name_under(place, out, flags.utf8_computer(), self.e)
    }

    // A request whose checks held, at the output's front, and its length.
    fn put_request(self, out: &mut [u8], flags: NlAuthFlags) -> usize
        requires { of_strings self (check_request (length out.old) flags) ≡ Ok tt }
        ensures len { result ≡ length (of_strings self.entry (request_bytes flags)) }
        ensures content { out.new ≡ at_front (of_strings self.entry (request_bytes flags)) out.old }
    {
        let place = put_head(out, NlAuth::REQUEST, flags);
        let place = self.put_oem(place, out, flags);
        self.put_utf8(place, out, flags).at
    }
}

// A length so far, and with string A or B.
#[tactic(auto, unfolding(crate::specs::Writing::bytes_under, crate::specs::Writing::zero_terminated))]
fn size_with(n: usize, set: bool, string: &[u8]) -> usize
    requires { n ≤ 65536 }
    ensures { result ≡ min 65536 (n + length (bytes_under set string.now)) }
{
    if set {
        return add_capped(add_capped(n, string.len()), 1);
    }
    n
}

// The same with string C, D or E.
#[tactic(auto, unfolding(crate::specs::Writing::name_bytes_under))]
fn size_with_name(n: usize, set: bool, text: &[u8]) -> usize
    requires { n ≤ 65536 }
    ensures { result ≡ min 65536 (n + length (name_bytes_under set text.now)) }
{
    if set {
        return add_capped(n, coded_size(text));
    }
    n
}

// MessageType and Flags, from the start of the output on.
fn put_head(out: &mut [u8], message_type: u32, flags: NlAuthFlags) -> Place
    requires { 8 ≤ length out.old }
    ensures next { result.at ≡ 8 }
    ensures wrote { Wrote out.old out.new 0 result.at (type_and_flags message_type flags) }
{
    let place = Place { at: 0 }.put_u32(out, message_type);
    place.put_u32(out, flags.bits)
}

// A string and its zero byte, from the start of the lent part on.
fn put_string(out: &mut [u8], string: &[u8]) -> Place
    requires { length string.now + 1 ≤ length out.old }
    ensures next { result.at ≡ length string.now + 1 }
    ensures wrote { Wrote out.old out.new 0 result.at (zero_terminated string.now) }
{
    let place = Place { at: 0 }.put_bytes(out, string);
    place.put_u8(out, 0)
}

// The string of a bit at its place: its writer is lent the output from there on.
#[tactic(auto, unfolding(crate::specs::Writing::bytes_under))]
fn put_under(place: Place, out: &mut [u8], set: bool, string: &[u8]) -> Place
    requires { place.at + length (bytes_under set string.now) ≤ length out.old }
    ensures { Wrote out.old out.new place.at result.at (bytes_under set string.now) }
{
    if set {
        let at = place.at;
        let end = put_string(&mut out[at..], string);
        return Place { at: at + end.at };
    }
    place
}

// The same of string C, D or E, whose labels check 50 let pass.
#[tactic(auto, unfolding(crate::specs::Writing::name_bytes_under, crate::specs::Writing::under))]
fn put_name_under(place: Place, out: &mut [u8], set: bool, text: &[u8]) -> Place
    requires { (text_holds (under set text.now) ≡ Held) × (place.at + length (name_bytes_under set text.now) ≤ length out.old) }
    ensures { Wrote out.old out.new place.at result.at (name_bytes_under set text.now) }
{
    if set {
        let at = place.at;
        let end = put_name(Place { at: 0 }, &mut out[at..], text);
        return Place { at: at + end.at };
    }
    place
}

// Writes a request of the strings under the set bits A to E; other bits are dropped first.
#[tactic(auto, unfolding(crate::specs::Writing::request_answer, crate::specs::Writing::request_out))]
pub fn write_request(
    out: &mut [u8],
    flags: NlAuthFlags,
    a: &[u8],
    b: &[u8],
    c: &[u8],
    d: &[u8],
    e: &[u8],
) -> Result<usize, Refusal>
    ensures answer { result ≡ request_answer (length out.old) (known flags) a.now b.now c.now d.now e.now }
    ensures content { out.new ≡ request_out out.old (known flags) a.now b.now c.now d.now e.now }
{
    let flags = flags.known();
    let strings = Strings { a, b, c, d, e };
    strings.check_request(out.len(), flags)?;
    Ok(strings.put_request(out, flags))
}

// Writes a response: its flags are zero, its buffer is one zero byte.
#[tactic(auto, using(crate::proofs::Sent::of_response), unfolding(crate::specs::Writing::response_answer, crate::specs::Writing::response_out))]
pub fn write_response(out: &mut [u8]) -> Result<usize, Refusal>
    ensures answer { result ≡ response_answer (length out.old) }
    ensures content { out.new ≡ response_out out.old }
{
    let Checked::Held = room_holds(9, out.len()) else {
        return Err(Refusal::NoRoom);
    };
    let place = put_head(out, NlAuth::RESPONSE, NlAuthFlags { bits: 0 });
    let end = place.put_u8(out, 0);
    Ok(end.at)
}
