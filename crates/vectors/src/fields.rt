// The fields of a line, with one space between them.
ghost use Rattle.std.specs.Prelude.{◌≤◌, length, IfSome};

use hex_text::get_hex;
use text::decimal::get_decimal;

// The first field, and what stands behind the space that ends it.
pub(crate) fn cut(text: &[u8]) -> (&[u8], &[u8]) {
    match text.iter().position(|b| *b == b' ') {
        Some(end) => (&text[..end], &text[end + 1..]),
        None => (text, &[]),
    }
}

// Four hex digits.
pub(crate) fn four_digits(digits: &[u8]) -> Option<u16> {
    let mut bytes = [0u8; 2];
    match get_hex(digits, &mut bytes) {
        Ok(2) => Some(u16::from_be_bytes(bytes)),
        _ => None,
    }
}

// Decimal digits.
pub(crate) fn decimal(digits: &[u8]) -> Option<usize>
    ensures { IfSome result (λ n. n ≤ 4294967295) }
{
    get_decimal(digits).map(|n| n as usize)
}

// Hex digits, read to the front of room; - is no bytes.
pub(crate) fn bytes<'a>(digits: &[u8], room: &'a mut [u8]) -> Option<&'a [u8]>
    ensures { IfSome result (λ b. length b.now ≤ length room.old) }
{
    match digits {
        b"" => None,
        b"-" => Some(&[]),
        _ => {
            let n = get_hex(digits, room).ok()?;
            room.get(..n)
        }
    }
}
