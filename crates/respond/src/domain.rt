// The domain to send: a part of the lent settings or of the lent challenge.
ghost use Rattle.std.specs.Prelude.{◌≡◌, Ok};
ghost use Rattle.read_challenge.specs.Challenge.{reading_of};
ghost use Rattle.respond.specs.Domain.{domain_to_send, DomainAt, DomainWithin};

use av_id::AvId;
use read_challenge::{Challenge, read_full};
use target_info::first_pair;

// The domain to send, for a challenge that was taken as `c`.
pub(crate) fn domain_of<'a>(own: &'a [u8], challenge: &'a [u8], c: Challenge) -> &'a [u8]
    requires { reading_of challenge.now ≡ Ok c }
    ensures content { result.now ≡ domain_to_send own.now challenge.now }
    ensures place { DomainAt own.entry challenge.entry result.ref_ptr }
    ensures within { DomainWithin own.now challenge.now }
{
    if own.len() != 0 {
        return own;
    }
    if c.flags.unicode() {
        let list = c.fields.target_info.bytes(challenge);
        let id = AvId {
            id: AvId::NB_DOMAIN_NAME,
        };
        let Some(p) = first_pair(list, id) else {
            return own;
        };
        let at = p.at;
        let end = at + p.len as usize;
        return &list[at..end];
    }
    own
}

// The domain to send: the settings' own, or where that is empty and UNICODE is set the value of the challenge's first pair 2.
pub fn domain_to_send<'a>(own: &'a [u8], challenge: &'a [u8]) -> &'a [u8]
    ensures content { result.now ≡ domain_to_send own.now challenge.now }
    ensures place { DomainAt own.entry challenge.entry result.ref_ptr }
    ensures within { DomainWithin own.now challenge.now }
{
    if own.len() != 0 {
        return own;
    }
    let Ok(f) = read_full(challenge) else {
        return own;
    };
    domain_of(own, challenge, f.challenge)
}
