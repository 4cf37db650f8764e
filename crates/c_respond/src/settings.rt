// The settings as one number of the C interface: each bit is named once, with a question for it.
ghost use Rattle.std.specs.Prelude.{◌≡◌};
ghost use Rattle.c_respond.specs.Settings.{demand128, ntlmv2, integrity, confidentiality, settings_of, bench_bits};

use respond::decision::Settings;
use wire::number::has;

#[derive(Clone, Copy)]
pub struct SettingsBits {
    pub bits: u32,
}

impl SettingsBits {
    // Document 01's "128-bit demanded".
    pub const DEMAND_128: u32 = 0x1;

    pub const NTLMV2: u32 = 0x2;

    pub const INTEGRITY: u32 = 0x4;

    pub const CONFIDENTIALITY: u32 = 0x8;

    // Of the defaults 128-bit and NTLMv2 are yes.
    pub const DEFAULTS: u32 = SettingsBits::DEMAND_128 + SettingsBits::NTLMV2;

    // The defaults but for 128-bit, which is not demanded of an old server.
    pub const OLD_SERVER: u32 = SettingsBits::NTLMV2;

    // The bench's: the defaults but for 128-bit, which is demanded where its caller's number is not 0.
    #[tactic(auto, unfolding(crate::specs::Settings::bench_bits))]
    pub fn for_bench(demand_128: u32) -> SettingsBits
        ensures { result.bits ≡ bench_bits demand_128 }
    {
        let bits = match demand_128 {
            0 => SettingsBits::OLD_SERVER,
            _ => SettingsBits::DEFAULTS,
        };
        SettingsBits { bits }
    }

    pub fn demand_128(self) -> bool
        ensures { result ≡ demand128 self }
    {
        has(self.bits, SettingsBits::DEMAND_128)
    }

    pub fn ntlmv2(self) -> bool
        ensures { result ≡ ntlmv2 self }
    {
        has(self.bits, SettingsBits::NTLMV2)
    }

    pub fn integrity(self) -> bool
        ensures { result ≡ integrity self }
    {
        has(self.bits, SettingsBits::INTEGRITY)
    }

    pub fn confidentiality(self) -> bool
        ensures { result ≡ confidentiality self }
    {
        has(self.bits, SettingsBits::CONFIDENTIALITY)
    }

    // The settings that the bits stand for; the other bits are passed over.
    pub fn settings(self) -> Settings
        ensures { result ≡ settings_of self.bits }
    {
        Settings {
            demand_128: self.demand_128(),
            ntlmv2: self.ntlmv2(),
            integrity: self.integrity(),
            confidentiality: self.confidentiality(),
        }
    }
}
