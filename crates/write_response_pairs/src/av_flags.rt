// The value of a flags pair (MsvAvFlags, MS-NLMP 2.2.2.1): the bits that an answer sets, each named once.
ghost use Rattle.std.specs.Prelude.{◌≡◌, cond, ◌≤◌};
ghost use Rattle.write_response_pairs.specs.ResponsePairs.{due_bits};

#[derive(Clone, Copy)]
pub struct AvFlags {
    pub bits: u32,
}

impl AvFlags {
    // The client provides a MIC.
    pub const MIC_PROVIDED: u32 = 0x2;

    // The target name is not verified.
    pub const UNVERIFIED_TARGET_NAME: u32 = 0x4;

    // The bits due: with a timestamp, and with a name that is marked unverified.
    #[tactic(auto, unfolding(crate::specs::ResponsePairs::due_bits))]
    pub(crate) fn due(timestamp: bool, unverified: bool) -> AvFlags
        ensures { result.bits ≡ due_bits timestamp unverified }
    {
        AvFlags {
            bits: one_bit(timestamp, AvFlags::MIC_PROVIDED)
                + one_bit(unverified, AvFlags::UNVERIFIED_TARGET_NAME),
        }
    }
}

fn one_bit(on: bool, mask: u32) -> u32
    requires { mask ≤ 4 }
    ensures { (result ≡ cond on mask 0) × (result ≤ 4) }
{
    if on {
        return mask;
    }
    0
}
