// The session where it lies: the two calls that change the record that a modem keeps for as long as its link is up.
#![tactic(auto)]

ghost use Rattle.book.specs.Call.{Call};
ghost use Rattle.session.specs.Promise.{Done, plain};

use refusal::Refusal;
use session::Session;

// Feed, on the session behind s.
pub fn feed(s: &mut Session, message: &[u8]) -> Result<(), Refusal>
    ensures { Done s.old (Call.Feed message.now) s.new (plain result) }
{
    *s = feeding::feed(*s, message)?;
    Ok(())
}

// Update, on the session behind s.
pub fn update(s: &mut Session, side: u8) -> Result<(), Refusal>
    ensures { Done s.old (Call.Update side) s.new (plain result) }
{
    *s = complete_stage::update::update(*s, side)?;
    Ok(())
}
