// NEGOTIATE_MESSAGE (MS-NLMP 2.2.1.1): reading.
#![tactic(auto)]

ghost use Rattle.std.specs.Prelude.{◌≡◌, ◌≤◌, length};
ghost use Rattle.read_negotiate.specs.Negotiate.{fields_at, check_ends, check_begins, check_fields, read_negotiate};

use field::{Field, field_at};
use head::{Layout, read_head};
use negotiate_flags::NegotiateFlags;
use wire::check::Checked;
use wire::refusal::Refusal;

// The two names, in field order: 1 and 2. Both are OEM bytes, whatever the flags say.
#[derive(Clone, Copy)]
pub struct Fields {
    pub domain: Field,
    pub workstation: Field,
}

#[derive(Clone, Copy)]
pub struct Negotiate {
    pub flags: NegotiateFlags,
    pub fields: Fields,
}

#[tactic(auto, using(crate::proofs::Laws::both))]
fn fields_at(msg: &[u8], flags: NegotiateFlags) -> Fields
    requires { 32 ≤ length msg.now }
    ensures { result ≡ fields_at msg.now flags }
{
    Fields {
        domain: field_at(msg, 16, flags.oem_domain_supplied()),
        workstation: field_at(msg, 24, flags.oem_workstation_supplied()),
    }
}

// Check 6, over both fields of a message of `n` bytes.
#[tactic(auto, using(wire::proofs::Laws::chain), unfolding(crate::specs::Negotiate::check_ends))]
fn check_ends(f: Fields, n: u64) -> Result<(), Refusal>
    ensures { result ≡ check_ends n f }
{
    let Checked::Held = f.domain.ends_inside(n) else {
        return Err(Refusal::PastEnd(1));
    };
    let Checked::Held = f.workstation.ends_inside(n) else {
        return Err(Refusal::PastEnd(2));
    };
    Ok(())
}

// Check 7, over both fields.
#[tactic(auto, using(wire::proofs::Laws::chain), unfolding(crate::specs::Negotiate::check_begins))]
fn check_begins(f: Fields) -> Result<(), Refusal>
    ensures { result ≡ check_begins f }
{
    let Checked::Held = f.domain.begins_after(32) else {
        return Err(Refusal::InFixedPart(1));
    };
    let Checked::Held = f.workstation.begins_after(32) else {
        return Err(Refusal::InFixedPart(2));
    };
    Ok(())
}

// Checks 6 and 7 on the fields of a message of `n` bytes.
fn check_fields(f: Fields, n: u64) -> Result<(), Refusal>
    ensures { result ≡ check_fields n f }
{
    check_ends(f, n)?;
    check_begins(f)
}

// Reads a message of any length: flags and both names' places, or the refusal. Only heads are looked at.
pub fn read(msg: &[u8]) -> Result<Negotiate, Refusal>
    ensures { result ≡ read_negotiate msg.now }
{
    let flags = read_head(
        msg,
        Layout {
            fixed: 32,
            message_type: 1,
            flags: 12,
        },
    )?;
    let fields = fields_at(msg, flags);
    check_fields(fields, msg.len() as u64)?;
    Ok(Negotiate { flags, fields })
}
