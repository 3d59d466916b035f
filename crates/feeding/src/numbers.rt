// The decision of Feed, test by test as its definition reads (book/specs/Refusals).
ghost use Rattle.std.specs.Prelude.{◌≡◌, ◌+◌, leb};
ghost use Rattle.refusal.specs.Refusal.{number};
ghost use Rattle.book.specs.Refusals.{feed_number, taking};
ghost use Rattle.book.specs.Messages.{max_transcript};

use super::messages::{is_taken, is_whole};
use book::points::{AFTER_SERVER_FINISHED, AFTER_SERVER_HELLO, APPLICATION, EARLY, HANDSHAKE};
use buffer::byte_at;
use refusal::{Refusal, refuse_if};

const MAX_TRANSCRIPT: u64 = 1048576;

// Whether a message is taken at a point and stage.
fn is_taking(point: u16, stage: u16) -> bool
    ensures { result ≡ taking point stage }
{
    match point {
        EARLY => stage < AFTER_SERVER_HELLO,
        HANDSHAKE => stage == AFTER_SERVER_HELLO,
        APPLICATION => stage == AFTER_SERVER_FINISHED,
        _ => false,
    }
}

// Whether n bytes more may be fed, whatever was fed: a session's count can be any number.
fn has_room(fed: u64, n: u64) -> bool
    ensures { result ≡ leb (fed + n) max_transcript }
{
    match fed.checked_add(n) {
        Some(sum) => sum <= MAX_TRANSCRIPT,
        None => false,
    }
}

#[tactic(auto, unfolding(book::specs::Refusals::feed_number))]
pub(crate) fn judge(point: u16, stage: u16, fed: u64, message: &[u8]) -> Result<(), Refusal>
    ensures { number result ≡ feed_number point stage fed message.now }
{
    let taken = is_taken(stage, byte_at(message, 0));
    refuse_if(!is_taking(point, stage), Refusal::NotAllowedHere)?;
    refuse_if(!is_whole(message), Refusal::MessageLength)?;
    refuse_if(!taken, Refusal::MessageType)?;
    refuse_if(!has_room(fed, message.len() as u64), Refusal::InputTooLong)
}
