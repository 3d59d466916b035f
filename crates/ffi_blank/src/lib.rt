// The calls that blank a session's bytes, as those of `ffi`: a fresh session, and Close. include/bindcricket.h declares them.
#![tactic(auto)]

ghost use Rattle.std.specs.Prelude.{[]};
ghost use Rattle.book.specs.Call.{Call};
ghost use Rattle.lent.specs.Called.{Called, MadeFresh, numbered};

use decoder::decode;
use encoder::encode;
use encoding::SESSION_BYTES;
use lent::NOT_A_SESSION;
use session::close::close;
use session::fresh;

// A fresh session.
#[unsafe(no_mangle)]
pub extern "C" fn bindcricket_fresh(session: &mut [u8]) -> u8
    ensures { MadeFresh session.old session.new result }
{
    if session.len() != SESSION_BYTES {
        return NOT_A_SESSION;
    }
    encode(fresh(), session);
    0
}

#[unsafe(no_mangle)]
pub extern "C" fn bindcricket_close(session: &mut [u8]) -> u8
    ensures { Called session.old Call.Close [] session.new (numbered result) }
{
    if session.len() != SESSION_BYTES {
        return NOT_A_SESSION;
    }
    let (next, _) = close(decode(session));
    encode(next, session);
    0
}
