// Close.
ghost use Rattle.std.specs.Prelude.{[], Ok};
ghost use Rattle.book.specs.Call.{Call};
ghost use Rattle.session.specs.Promise.{Done, wrote};

use super::{Session, fresh};
use book::points::CLOSED;

// Always accepted: everything becomes zero, the point Closed. The session after it, and the bytes written: none.
pub fn close(s: Session) -> (Session, usize)
    ensures { Done s Call.Close result.0 (wrote (Ok result.1) []) }
{
    let mut next = fresh();
    next.point = CLOSED;
    (next, 0)
}
