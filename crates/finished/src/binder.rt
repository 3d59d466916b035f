// Binder: the PSK binder over a cut ClientHello.
ghost use Rattle.book.specs.Call.{Call};
ghost use Rattle.session.specs.Promise.{Done, wrote};

use super::numbers::judge_binder;
use super::values::write_value;
use refusal::Answer;
use session::Session;
use traffic::{messages_hash, verify_data};

// At Early, with a PSK; over the bytes of hello alone, whose length field is not judged. Refusals 1, 3, 7, 8 and 11.
// Inlined, so that no session lies on the stack for the binder key.
#[inline(always)]
pub fn binder(s: Session, hello: &[u8], out: &mut [u8]) -> Answer
    ensures { Done s (Call.Binder hello.now out.old) s (wrote result out.new) }
{
    judge_binder(&s, hello, out.len())?;
    let hash = messages_hash(s.suite, hello);
    let value = verify_data(s.suite, s.binder_key, hash);
    let count = write_value(s.suite, value, out);
    Ok(count)
}
