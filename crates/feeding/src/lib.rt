// Feed: one whole handshake message.
#![tactic(auto)]

mod messages;
mod numbers;

ghost use Rattle.book.specs.Call.{Call};
ghost use Rattle.session.specs.Promise.{Done, after, plain};

use buffer::byte_at;
use messages::stage_after;
use numbers::judge;
use refusal::Refusal;
use session::Session;
use suite_hash::running::Running;

// Absorbs the message into the transcript. Refusals 1, 7, 8 and 9.
pub fn feed(mut s: Session, message: &[u8]) -> Result<Session, Refusal>
    ensures { Done s (Call.Feed message.now) (after s result) (plain result) }
{
    judge(s.point, s.stage, s.transcript.count, message)?;
    // By its parts: moved whole, the running hash lies in the frame twice.
    let Running {
        state,
        block,
        count,
    } = s.transcript;
    let mut transcript = Running {
        state,
        block,
        count,
    };
    transcript.absorb(s.suite, message);
    s.transcript = transcript;
    s.stage = stage_after(s.stage, byte_at(message, 0));
    Ok(s)
}
