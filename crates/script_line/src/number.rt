// The numbers and bytes of a line's fields.
ghost use Rattle.std.specs.Prelude.{◌≡◌, length};
ghost use Rattle.script_line.specs.Fields.{hex_number, small_number, read_body, body_of, kept};

use hex_text::{BadDigit, get_hex, hex_value};
use text::decimal::get_decimal;

// Reads all of s as a number of 1 to 4 hex digits: a suite or group.
pub(crate) fn hex_number(s: &[u8]) -> Option<u16>
    ensures { result ≡ hex_number s.now }
{
    if s.is_empty() || 4 < s.len() {
        return None;
    }
    let mut n: u16 = 0;
    for c in s {
        n = n * 16 + u16::from(hex_value(*c)?);
    }
    Some(n)
}

// Reads all of s as a decimal number of at most 255: a PSK kind or side.
#[tactic(auto, unfolding(crate::specs::Fields::small_number))]
pub(crate) fn small_number(s: &[u8]) -> Option<u8>
    ensures { result ≡ small_number s.now }
{
    u8::try_from(get_decimal(s)?).ok()
}

// Reads all of s as bytes, into the front of out: two hex digits a byte, or - for none.
pub(crate) fn get_body(s: &[u8], out: &mut [u8]) -> Result<usize, BadDigit>
    ensures { (result ≡ read_body s.now (length out.old)) × (out.new ≡ kept result (body_of s.now) out.old) }
{
    if s == b"-".as_slice() {
        return Ok(0);
    }
    get_hex(s, out)
}
