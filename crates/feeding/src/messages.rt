// Handshake messages: what Feed judges of one.
ghost use Rattle.std.specs.Prelude.{◌≡◌, ◌<◌};
ghost use Rattle.book.specs.Messages.{length_field, whole_message, stage_after, type_taken};

use book::messages::{
    CERTIFICATE, CERTIFICATE_REQUEST, CERTIFICATE_VERIFY, CLIENT_HELLO, ENCRYPTED_EXTENSIONS,
    END_OF_EARLY_DATA, FINISHED, MAX_LENGTH, SERVER_HELLO,
};
use book::points::{
    AFTER_CLIENT_FINISHED, AFTER_CLIENT_HELLO, AFTER_SERVER_FINISHED, AFTER_SERVER_HELLO,
    NO_MESSAGE,
};
use buffer::byte_at;

// The 3-byte length behind the type, high byte first.
fn length_field(m: &[u8]) -> u64
    ensures { (result ≡ length_field m.now) × (result < 16777216) }
{
    let high = u64::from(byte_at(m, 1));
    let middle = u64::from(byte_at(m, 2));
    let low = u64::from(byte_at(m, 3));
    high * 65536 + middle * 256 + low
}

pub(crate) fn is_whole(m: &[u8]) -> bool
    ensures { result ≡ whole_message m.now }
{
    let n = m.len();
    let field = length_field(m);
    (4 <= n) & ((n <= MAX_LENGTH) & (field + 4 == (n as u64)))
}

// How far the messages have come after one more of that type.
pub(crate) fn stage_after(stage: u16, kind: u8) -> u16
    ensures { result ≡ stage_after stage kind }
{
    match (stage, kind) {
        (NO_MESSAGE, CLIENT_HELLO) => AFTER_CLIENT_HELLO,
        (AFTER_CLIENT_HELLO, SERVER_HELLO) => AFTER_SERVER_HELLO,
        (AFTER_SERVER_HELLO, FINISHED) => AFTER_SERVER_FINISHED,
        (AFTER_SERVER_FINISHED, FINISHED) => AFTER_CLIENT_FINISHED,
        _ => stage,
    }
}

// Whether a type is taken at a stage.
pub(crate) fn is_taken(stage: u16, kind: u8) -> bool
    ensures { result ≡ type_taken stage kind }
{
    match stage {
        NO_MESSAGE => kind == CLIENT_HELLO,
        AFTER_CLIENT_HELLO => kind == SERVER_HELLO,
        AFTER_SERVER_HELLO => matches!(
            kind,
            ENCRYPTED_EXTENSIONS | CERTIFICATE | CERTIFICATE_REQUEST | CERTIFICATE_VERIFY | FINISHED
        ),
        AFTER_SERVER_FINISHED => matches!(
            kind,
            END_OF_EARLY_DATA | CERTIFICATE | CERTIFICATE_VERIFY | FINISHED
        ),
        _ => false,
    }
}
