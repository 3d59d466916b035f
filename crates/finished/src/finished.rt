// Finished: the Finished value of a side.
ghost use Rattle.book.specs.Call.{Call};
ghost use Rattle.session.specs.Promise.{Done, wrote};

use super::numbers::judge_finished;
use super::values::{finished_value, write_value};
use refusal::Answer;
use session::Session;

// Side 1 is the client, 2 the server; before that side's Finished is fed. Refusals 1, 2 and 11.
pub fn finished(s: Session, side: u8, out: &mut [u8]) -> Answer
    ensures { Done s (Call.Finished side out.old) s (wrote result out.new) }
{
    judge_finished(&s, side, out.len())?;
    let value = finished_value(&s, side);
    let count = write_value(s.suite, value, out);
    Ok(count)
}
