// What a call on a lent session answers, and what it leaves in the buffer.
#![tactic(auto)]

ghost use Rattle.std.specs.Prelude.{◌≡◌};
ghost use Rattle.refusal.specs.Refusal.{number};
ghost use Rattle.lent.specs.Called.{stored};

use encoder::encode;
use refusal::Refusal;
use session::Session;

// What a lent call answers where the buffer does not have a session's size; no refusal has this number.
pub const NOT_A_SESSION: u8 = 255;

// Writes the session after an accepted call to its buffer, and answers the call's number.
pub fn store(done: Result<Session, Refusal>, session: &mut [u8]) -> u8
    ensures { (result ≡ number done) × (session.new ≡ stored done session.old) }
{
    match done {
        Ok(next) => {
            encode(next, session);
            0
        }
        Err(why) => why.number(),
    }
}
