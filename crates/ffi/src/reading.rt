// The calls that only read a session. Each answers its number, with what it wrote reported beside it.
ghost use Rattle.std.specs.Prelude.{[]};
ghost use Rattle.book.specs.Call.{Call};
ghost use Rattle.lent.specs.Called.{Called, counted, judging};

use super::report::report;
use decoder::decode;
use encoding::SESSION_BYTES;
use finished::binder::binder;
use finished::check::check;
use finished::finished::finished;
use lent::NOT_A_SESSION;
use outputs::export::export;
use outputs::keys::keys;

#[unsafe(no_mangle)]
pub extern "C" fn bindcricket_keys(
    session: &[u8],
    name: u8,
    out: &mut [u8],
    written: &mut usize,
) -> u8
    ensures { Called session.now (Call.Keys name out.old) out.old session.now (counted result written.new out.new) }
{
    if session.len() != SESSION_BYTES {
        *written = 0;
        return NOT_A_SESSION;
    }
    report(keys(decode(session), name, out), written)
}

#[unsafe(no_mangle)]
pub extern "C" fn bindcricket_finished(
    session: &[u8],
    side: u8,
    out: &mut [u8],
    written: &mut usize,
) -> u8
    ensures { Called session.now (Call.Finished side out.old) out.old session.now (counted result written.new out.new) }
{
    if session.len() != SESSION_BYTES {
        *written = 0;
        return NOT_A_SESSION;
    }
    report(finished(decode(session), side, out), written)
}

#[unsafe(no_mangle)]
pub extern "C" fn bindcricket_binder(
    session: &[u8],
    hello: &[u8],
    out: &mut [u8],
    written: &mut usize,
) -> u8
    ensures { Called session.now (Call.Binder hello.now out.old) out.old session.now (counted result written.new out.new) }
{
    if session.len() != SESSION_BYTES {
        *written = 0;
        return NOT_A_SESSION;
    }
    report(binder(decode(session), hello, out), written)
}

#[unsafe(no_mangle)]
pub extern "C" fn bindcricket_export(
    session: &[u8],
    name: u8,
    label: &[u8],
    context: &[u8],
    asked: usize,
    out: &mut [u8],
    written: &mut usize,
) -> u8
    ensures { Called session.now (Call.Export name label.now context.now asked out.old) out.old session.now (counted result written.new out.new) }
{
    if session.len() != SESSION_BYTES {
        *written = 0;
        return NOT_A_SESSION;
    }
    report(
        export(decode(session), name, label, context, asked, out),
        written,
    )
}

// yes becomes 1 where the verdict is yes, else 0.
#[unsafe(no_mangle)]
pub extern "C" fn bindcricket_check(session: &[u8], side: u8, received: &[u8], yes: &mut u8) -> u8
    ensures { Called session.now (Call.Check side received.now) [] session.now (judging result yes.new) }
{
    if session.len() != SESSION_BYTES {
        *yes = 0;
        return NOT_A_SESSION;
    }
    // One match for both: by `is_yes` and `number`, the compiler branches on the verdict, which is secret.
    match check(decode(session), side, received) {
        Ok(verdict) => {
            *yes = verdict as u8;
            0
        }
        Err(why) => {
            *yes = 0;
            why.number()
        }
    }
}
