// Numbers in a log line: upper-case hex digits, and decimals without leading zeros. A line's decimals have 32 bits, which a
// small processor can divide.
ghost use Rattle.std.specs.Prelude.{ℕ, ◌≡◌, ◌/◌, ◌%◌, ◌≤◌, ◌<◌, length};
ghost use Rattle.place.specs.Place.{Wrote};
ghost use Rattle.line_words.specs.Digits.{hex_digit, digits, hex, decimal};

use place::Place;

// The digit of a number below 16, worked out from the number: from ten on, 7 characters further, which are those between '9' and 'A'.
// The sum takes less code on a Cortex-M than a branch does.
fn hex_digit(n: u8) -> u8
    requires { n < 16 }
    ensures { result ≡ hex_digit n }
{
    b'0' + n + 7 * (n / 10)
}

// A number, and the base in which its digits are written.
trait Digits: Copy {
    ghost base: { ℕ };

    ghost number: { Self → ℕ };

    // The number's last digit.
    fn lowest(self) -> u8
        ensures digit { result ≡ number self % base }
        ensures small { result < 16 };

    // The number without it.
    fn others(self) -> Self
        ensures { number result ≡ number self / base };
}

#[derive(Clone, Copy)]
struct Hex(u64);

impl Digits for Hex {
    ghost base = { 16 };

    ghost number = { λ n. n.0 };

    fn lowest(self) -> u8 {
        (self.0 % 16) as u8
    }

    fn others(self) -> Hex {
        Hex(self.0 / 16)
    }
}

#[derive(Clone, Copy)]
struct Decimal(u32);

impl Digits for Decimal {
    ghost base = { 10 };

    ghost number = { λ n. n.0 };

    fn lowest(self) -> u8 {
        (self.0 % 10) as u8
    }

    fn others(self) -> Decimal {
        Decimal(self.0 / 10)
    }
}

// The last `k` digits of a number, from the lowest to the highest, at the start of the output.
fn put_digits<D: Digits>(out: &mut [u8], n: D, k: usize) -> Place
    requires { k ≤ length out.old }
    ensures next { result.at ≡ k }
    ensures wrote { Wrote out.old out.new 0 result.at (digits D.base k (D.number n)) }
{
    let mut left = n;
    for i in (0..k).rev() {
        out[i] = hex_digit(left.lowest());
        left = left.others();
    }
    Place { at: k }
}

// The last `k` hex digits of a number, at the start of the output.
#[tactic(auto, unfolding(crate::specs::Digits::hex))]
pub fn put_hex(out: &mut [u8], n: u64, k: usize) -> Place
    requires { k ≤ length out.old }
    ensures next { result.at ≡ k }
    ensures wrote { Wrote out.old out.new 0 result.at (hex k n) }
{
    put_digits(out, Hex(n), k)
}

// How many digits a decimal has. `ilog10` would go by a table of powers of ten, which a small processor would have to hold.
pub fn decimal_size(n: u32) -> usize
    ensures { result ≡ length (decimal n) }
{
    let mut size: usize = 1;
    let mut left = n;
    while 10 <= left {
        size += 1;
        left /= 10;
    }
    size
}

// A decimal, at the start of the output.
pub fn put_decimal(out: &mut [u8], n: u32) -> Place
    requires { length (decimal n) ≤ length out.old }
    ensures { Wrote out.old out.new 0 result.at (decimal n) }
{
    put_digits(out, Decimal(n), decimal_size(n))
}
