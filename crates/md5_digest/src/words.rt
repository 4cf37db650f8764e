// The four functions of three words, and the table T (RFC 1321, section 3.4).
ghost use Rattle.std.specs.Prelude.{◌≡◌, ◌<◌, get_or};
ghost use Rattle.md5_digest.specs.Words.{f, g, h, i, sines};

// The table T: an entry for each step.
static SINES: [u32; 64] = [
    0xD76AA478, 0xE8C7B756, 0x242070DB, 0xC1BDCEEE, 0xF57C0FAF, 0x4787C62A, 0xA8304613, 0xFD469501,
    0x698098D8, 0x8B44F7AF, 0xFFFF5BB1, 0x895CD7BE, 0x6B901122, 0xFD987193, 0xA679438E, 0x49B40821,
    0xF61E2562, 0xC040B340, 0x265E5A51, 0xE9B6C7AA, 0xD62F105D, 0x02441453, 0xD8A1E681, 0xE7D3FBC8,
    0x21E1CDE6, 0xC33707D6, 0xF4D50D87, 0x455A14ED, 0xA9E3E905, 0xFCEFA3F8, 0x676F02D9, 0x8D2A4C8A,
    0xFFFA3942, 0x8771F681, 0x6D9D6122, 0xFDE5380C, 0xA4BEEA44, 0x4BDECFA9, 0xF6BB4B60, 0xBEBFBC70,
    0x289B7EC6, 0xEAA127FA, 0xD4EF3085, 0x04881D05, 0xD9D4D039, 0xE6DB99E5, 0x1FA27CF8, 0xC4AC5665,
    0xF4292244, 0x432AFF97, 0xAB9423A7, 0xFC93A039, 0x655B59C3, 0x8F0CCC92, 0xFFEFF47D, 0x85845DD1,
    0x6FA87E4F, 0xFE2CE6E0, 0xA3014314, 0x4E0811A1, 0xF7537E82, 0xBD3AF235, 0x2AD7D2BB, 0xEB86D391,
];

pub fn f(x: u32, y: u32, z: u32) -> u32
    ensures { result ≡ f x y z }
{
    (x & y) | (!x & z)
}

pub fn g(x: u32, y: u32, z: u32) -> u32
    ensures { result ≡ g x y z }
{
    (x & z) | (y & !z)
}

pub fn h(x: u32, y: u32, z: u32) -> u32
    ensures { result ≡ h x y z }
{
    x ^ y ^ z
}

pub fn i(x: u32, y: u32, z: u32) -> u32
    ensures { result ≡ i x y z }
{
    y ^ (x | !z)
}

// Entry n of the table.
#[tactic(auto, unfolding(crate::specs::Words::sines))]
pub fn sine(n: usize) -> u32
    requires { n < 64 }
    ensures { result ≡ get_or sines n 0 }
{
    SINES[n]
}
