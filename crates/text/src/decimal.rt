// Numbers as decimal digits.
ghost use Rattle.std.specs.Prelude.{◌≡◌, ◌<◌, ◌≤◌, IfSome};
ghost use Rattle.buffer.specs.Buffer.{after, behind};
ghost use Rattle.text.specs.Decimal.{decimal_of, read_digit, read_decimal, max_decimal};

// The largest number that is read.
pub const MAX: u64 = 4294967295;

// Writes the digits of n to out from index at on, without leading zeros, and answers the index
// behind them. Where they do not fit there nothing is written, and the answer is at.
pub fn put_decimal(out: &mut [u8], at: usize, n: u64) -> usize
    ensures { (result ≡ behind at (decimal_of n) out.old) × (out.new ≡ after at (decimal_of n) out.old) }
{
    let mut digits = [0u8; 20];
    let k = io::decimal(n, &mut digits);
    buffer::put(out, at, &digits[..k])
}

// The value of a digit, where c is one.
#[tactic(auto, unfolding(crate::specs::Decimal::decimal_value, crate::specs::Decimal::read_digit))]
fn value(c: u8) -> Option<u32>
    ensures { (result ≡ read_digit c) × IfSome result (λ d. d < 10) }
{
    char::from(c).to_digit(10)
}

// Reads all of s as a number of at most MAX: at least one digit, and leading zeros are taken.
pub fn get_decimal(s: &[u8]) -> Option<u64>
    ensures { (result ≡ read_decimal s.now) × IfSome result (λ n. n ≤ max_decimal) }
{
    if s.is_empty() {
        return None;
    }
    let mut n: u64 = 0;
    for c in s {
        n = n * 10 + u64::from(value(*c)?);
        if MAX < n {
            return None;
        }
    }
    Some(n)
}
