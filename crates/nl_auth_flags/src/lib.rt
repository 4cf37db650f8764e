// The flags of NL_AUTH_MESSAGE: bits A to E, each named once by the string that it stands for, with a question for it.
#![tactic(auto)]

ghost use Rattle.std.specs.Prelude.{◌≡◌};
ghost use Rattle.nl_auth_flags.specs.Flags.{nb_domain, nb_computer, dns_domain, dns_host, utf8_computer, known, strings_hold};

use wire::check::{Checked, check};
use wire::number::has;

#[derive(Clone, Copy)]
pub struct NlAuthFlags {
    pub bits: u32,
}

impl NlAuthFlags {
    // A: the NetBIOS domain name.
    pub const NB_DOMAIN: u32 = 0x1;

    // B: the NetBIOS computer name.
    pub const NB_COMPUTER: u32 = 0x2;

    // C: the DNS domain name.
    pub const DNS_DOMAIN: u32 = 0x4;

    // D: the DNS host name.
    pub const DNS_HOST: u32 = 0x8;

    // E: the NetBIOS computer name in UTF-8.
    pub const UTF8_COMPUTER: u32 = 0x10;

    // One more than all of A to E.
    const ABOVE: u32 = 0x20;

    pub fn nb_domain(self) -> bool
        ensures { result ≡ nb_domain self }
    {
        has(self.bits, NlAuthFlags::NB_DOMAIN)
    }

    pub fn nb_computer(self) -> bool
        ensures { result ≡ nb_computer self }
    {
        has(self.bits, NlAuthFlags::NB_COMPUTER)
    }

    pub fn dns_domain(self) -> bool
        ensures { result ≡ dns_domain self }
    {
        has(self.bits, NlAuthFlags::DNS_DOMAIN)
    }

    pub fn dns_host(self) -> bool
        ensures { result ≡ dns_host self }
    {
        has(self.bits, NlAuthFlags::DNS_HOST)
    }

    pub fn utf8_computer(self) -> bool
        ensures { result ≡ utf8_computer self }
    {
        has(self.bits, NlAuthFlags::UTF8_COMPUTER)
    }

    // Bits A to E, the others zero.
    pub fn known(self) -> NlAuthFlags
        ensures { result ≡ known self }
    {
        NlAuthFlags {
            bits: self.bits % NlAuthFlags::ABOVE,
        }
    }

    // Check 14, in reading and in writing.
    pub fn strings_hold(self) -> Checked
        ensures { result ≡ strings_hold self }
    {
        check(
            self.nb_domain()
                | self.nb_computer()
                | self.dns_domain()
                | self.dns_host()
                | self.utf8_computer(),
        )
    }
}
