// The calls that may change a session. Each answers its number: 0, a refusal, or 255 for a buffer that does not have a session's
// size; only where it is 0 is the buffer written. The size is tested in each call: a function that took the call as a closure
// would require that it may be called, and no public function here requires anything (history/proofs/Contracts).
ghost use Rattle.std.specs.Prelude.{[]};
ghost use Rattle.book.specs.Call.{Call};
ghost use Rattle.lent.specs.Called.{Called, numbered};

use application_stage::application_lent;
use complete_stage::complete::complete_lent;
use complete_stage::update::update_lent;
use decoder::decode;
use early_stage::early_lent;
use encoding::SESSION_BYTES;
use feeding::feed;
use handshake_stage::handshake_lent;
use lent::{NOT_A_SESSION, store};
use opening_stage::begin;

#[unsafe(no_mangle)]
pub extern "C" fn bindcricket_begin(session: &mut [u8], suite: u16, kind: u8, psk: &[u8]) -> u8
    ensures { Called session.old (Call.Begin suite kind psk.now) [] session.new (numbered result) }
{
    if session.len() != SESSION_BYTES {
        return NOT_A_SESSION;
    }
    let done = begin(decode(session), suite, kind, psk);
    store(done, session)
}

#[unsafe(no_mangle)]
pub extern "C" fn bindcricket_feed(session: &mut [u8], message: &[u8]) -> u8
    ensures { Called session.old (Call.Feed message.now) [] session.new (numbered result) }
{
    if session.len() != SESSION_BYTES {
        return NOT_A_SESSION;
    }
    let done = feed(decode(session), message);
    store(done, session)
}

#[unsafe(no_mangle)]
pub extern "C" fn bindcricket_early(session: &mut [u8]) -> u8
    ensures { Called session.old Call.Early [] session.new (numbered result) }
{
    early_lent(session)
}

#[unsafe(no_mangle)]
pub extern "C" fn bindcricket_handshake(session: &mut [u8], group: u16, secret: &[u8]) -> u8
    ensures { Called session.old (Call.Handshake group secret.now) [] session.new (numbered result) }
{
    handshake_lent(session, group, secret)
}

#[unsafe(no_mangle)]
pub extern "C" fn bindcricket_application(session: &mut [u8]) -> u8
    ensures { Called session.old Call.Application [] session.new (numbered result) }
{
    application_lent(session)
}

#[unsafe(no_mangle)]
pub extern "C" fn bindcricket_complete(session: &mut [u8]) -> u8
    ensures { Called session.old Call.Complete [] session.new (numbered result) }
{
    complete_lent(session)
}

#[unsafe(no_mangle)]
pub extern "C" fn bindcricket_update(session: &mut [u8], side: u8) -> u8
    ensures { Called session.old (Call.Update side) [] session.new (numbered result) }
{
    update_lent(session, side)
}
