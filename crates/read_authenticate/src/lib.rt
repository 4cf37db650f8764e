// AUTHENTICATE_MESSAGE (MS-NLMP 2.2.1.3): reading.
#![tactic(auto)]

ghost use Rattle.std.specs.Prelude.{◌≡◌, ◌≤◌, length};
ghost use Rattle.read_authenticate.specs.Authenticate.{fields_at, check_ends, check_begins, check_names, apart, check_shared, check_fields, mic_present, reading_of, mic_bytes, read_authenticate};

use field::{Field, field_at};
use head::{Layout, read_head};
use negotiate_flags::NegotiateFlags;
use wire::check::{Checked, check};
use wire::number::fill;
use wire::refusal::Refusal;

// The six fields, in field order: 1 to 6.
#[derive(Clone, Copy)]
pub struct Fields {
    pub lm: Field,
    pub nt: Field,
    pub domain: Field,
    pub user: Field,
    pub workstation: Field,
    pub key: Field,
}

#[derive(Clone, Copy)]
pub struct Authenticate {
    pub flags: NegotiateFlags,
    pub fields: Fields,
    pub mic_present: bool,
}

// What reading answers; the MIC's bytes are zeros where there is none.
#[derive(Clone, Copy)]
pub struct Answer {
    pub reading: Result<Authenticate, Refusal>,
    pub mic: [u8; 16],
}

#[tactic(auto, using(crate::proofs::Laws::six))]
fn fields_at(msg: &[u8], flags: NegotiateFlags) -> Fields
    requires { 64 ≤ length msg.now }
    ensures { result ≡ fields_at msg.now flags }
{
    Fields {
        lm: field_at(msg, 12, true),
        nt: field_at(msg, 20, true),
        domain: field_at(msg, 28, true),
        user: field_at(msg, 36, true),
        workstation: field_at(msg, 44, true),
        key: field_at(msg, 52, flags.key_exch()),
    }
}

// Check 6, over all fields of a message of `n` bytes.
#[tactic(auto, using(wire::proofs::Laws::chain), unfolding(crate::specs::Authenticate::check_ends))]
fn check_ends(f: Fields, n: u64) -> Result<(), Refusal>
    ensures { result ≡ check_ends n f }
{
    let Checked::Held = f.lm.ends_inside(n) else {
        return Err(Refusal::PastEnd(1));
    };
    let Checked::Held = f.nt.ends_inside(n) else {
        return Err(Refusal::PastEnd(2));
    };
    let Checked::Held = f.domain.ends_inside(n) else {
        return Err(Refusal::PastEnd(3));
    };
    let Checked::Held = f.user.ends_inside(n) else {
        return Err(Refusal::PastEnd(4));
    };
    let Checked::Held = f.workstation.ends_inside(n) else {
        return Err(Refusal::PastEnd(5));
    };
    let Checked::Held = f.key.ends_inside(n) else {
        return Err(Refusal::PastEnd(6));
    };
    Ok(())
}

// Check 7, over all fields.
#[tactic(auto, using(wire::proofs::Laws::chain), unfolding(crate::specs::Authenticate::check_begins))]
fn check_begins(f: Fields) -> Result<(), Refusal>
    ensures { result ≡ check_begins f }
{
    let Checked::Held = f.lm.begins_after(64) else {
        return Err(Refusal::InFixedPart(1));
    };
    let Checked::Held = f.nt.begins_after(64) else {
        return Err(Refusal::InFixedPart(2));
    };
    let Checked::Held = f.domain.begins_after(64) else {
        return Err(Refusal::InFixedPart(3));
    };
    let Checked::Held = f.user.begins_after(64) else {
        return Err(Refusal::InFixedPart(4));
    };
    let Checked::Held = f.workstation.begins_after(64) else {
        return Err(Refusal::InFixedPart(5));
    };
    let Checked::Held = f.key.begins_after(64) else {
        return Err(Refusal::InFixedPart(6));
    };
    Ok(())
}

// Check 8, over the names.
#[tactic(auto, using(wire::proofs::Laws::chain), unfolding(crate::specs::Authenticate::check_names))]
fn check_names(f: Fields, unicode: bool) -> Result<(), Refusal>
    ensures { result ≡ check_names unicode f }
{
    let Checked::Held = f.domain.even_name(unicode) else {
        return Err(Refusal::OddName(3));
    };
    let Checked::Held = f.user.even_name(unicode) else {
        return Err(Refusal::OddName(4));
    };
    let Checked::Held = f.workstation.even_name(unicode) else {
        return Err(Refusal::OddName(5));
    };
    Ok(())
}

// Check 9 at one name: it shares no byte with a secret.
fn name_apart(name: Field, f: Fields) -> Checked
    ensures { result ≡ apart f name }
{
    check(!(name.shares(f.lm) | name.shares(f.nt) | name.shares(f.key)))
}

// Check 9, over the names.
#[tactic(auto, using(wire::proofs::Laws::chain), unfolding(crate::specs::Authenticate::check_shared))]
fn check_shared(f: Fields) -> Result<(), Refusal>
    ensures { result ≡ check_shared f }
{
    let Checked::Held = name_apart(f.domain, f) else {
        return Err(Refusal::NameOverSecret(3));
    };
    let Checked::Held = name_apart(f.user, f) else {
        return Err(Refusal::NameOverSecret(4));
    };
    let Checked::Held = name_apart(f.workstation, f) else {
        return Err(Refusal::NameOverSecret(5));
    };
    Ok(())
}

// Whether a MIC is there: the lowest offset of a nonempty field, or else the message's length, is at least 88.
#[tactic(auto, using(crate::proofs::Mic::mic_is))]
fn mic_present(f: Fields, n: usize) -> bool
    ensures { result ≡ mic_present n f }
{
    let room = f.lm.begins(88)
        & f.nt.begins(88)
        & f.domain.begins(88)
        & f.user.begins(88)
        & f.workstation.begins(88)
        & f.key.begins(88);
    let some = (f.lm.len != 0)
        | (f.nt.len != 0)
        | (f.domain.len != 0)
        | (f.user.len != 0)
        | (f.workstation.len != 0)
        | (f.key.len != 0);
    room & (some | (88 <= n))
}

// Checks 6 to 9 on the fields of a message of `n` bytes.
fn check_fields(f: Fields, unicode: bool, n: u64) -> Result<(), Refusal>
    ensures { result ≡ check_fields n unicode f }
{
    check_ends(f, n)?;
    check_begins(f)?;
    check_names(f, unicode)?;
    check_shared(f)
}

// Checks 1 to 9. Only heads are looked at, whatever the message's length.
fn reading_of(msg: &[u8]) -> Result<Authenticate, Refusal>
    ensures { result ≡ reading_of msg.now }
{
    let flags = read_head(
        msg,
        Layout {
            fixed: 64,
            message_type: 3,
            flags: 60,
        },
    )?;
    let fields = fields_at(msg, flags);
    check_fields(fields, flags.unicode(), msg.len() as u64)?;
    Ok(Authenticate {
        flags,
        fields,
        mic_present: mic_present(fields, msg.len()),
    })
}

// The sixteen bytes at 72 where the message's reading found a MIC, zeros otherwise.
#[tactic(auto, using(crate::proofs::Mic::mic_bytes_rules))]
fn mic_bytes(msg: &[u8], reading: Result<Authenticate, Refusal>) -> [u8; 16]
    requires { reading ≡ reading_of msg.now }
    ensures { result ≡ mic_bytes reading msg.now }
{
    let mut mic = [0u8; 16];
    let Ok(a) = reading else {
        return mic;
    };
    if a.mic_present {
        fill(&mut mic, msg, 72);
        return mic;
    }
    mic
}

// Reads a message of any length: flags, MIC and the six fields' places, or the refusal.
#[tactic(auto, using(crate::proofs::Mic::answered))]
pub fn read(msg: &[u8]) -> Answer
    ensures { result ≡ read_authenticate msg.now }
{
    let reading = reading_of(msg);
    let mic = mic_bytes(msg, reading);
    Answer { reading, mic }
}
