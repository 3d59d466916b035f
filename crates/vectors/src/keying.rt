// The operations hmac, extract and expand: SUITE N HEX HEX. N bytes are printed: of hmac and extract the front, of
// expand the length asked for. The bytes are the key and the message, the salt and the input, or the secret and the info.
use super::arguments::Arguments;
use super::output::{Fault, Outcome, Value};
use extract::{extract, hmac};
use hkdf::expand::expand;

// An operation on a key and some bytes.
#[derive(Clone, Copy)]
pub(crate) enum Keying {
    Hmac,
    Extract,
    Expand,
}

impl Keying {
    // At most as many bytes are printed as there is room.
    pub(crate) fn value<'a>(self, given: Arguments, room: &'a mut [u8; 512]) -> Outcome<'a> {
        let Arguments {
            number: suite,
            length,
            x,
            y,
        } = given;
        if room.len() < length {
            return Err(Fault::BadLine);
        }
        match self {
            Keying::Hmac => hmac(suite, x, y, room)?,
            Keying::Extract => extract(suite, x, y, room)?,
            Keying::Expand => expand(suite, x, y, length, room)?,
        };
        Ok(Value::Bytes(&room[..length]))
    }
}
