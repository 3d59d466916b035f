// Check: whether received bytes are the Finished value of a side.
ghost use Rattle.std.specs.Prelude.{◌≡◌};
ghost use Rattle.buffer.specs.Buffer.{same};
ghost use Rattle.book.specs.Call.{Call};
ghost use Rattle.session.specs.Promise.{Done};
ghost use Rattle.outputs.specs.Verdict.{judged};

use super::numbers::judge_check;
use super::values::finished_value;
use refusal::verdict::Verdict;
use session::Session;
use suite::Suite;

// Whether two slices are equal. All bytes are read, and no branch depends on one; lengths are public.
fn is_same(a: &[u8], b: &[u8]) -> bool
    ensures { result ≡ same a.now b.now }
{
    if a.len() != b.len() {
        return false;
    }
    let bits = a.iter().zip(b).fold(0u8, |bits, (x, y)| bits | (x ^ y));
    bits == 0
}

// Side 1 is the client, 2 the server; where Finished gives that side's value. Bytes of another length are a no. Refusals 1
// and 2.
pub fn check(s: Session, side: u8, received: &[u8]) -> Verdict
    ensures { Done s (Call.Check side received.now) s (judged result) }
{
    judge_check(&s, side)?;
    let h = Suite::hash_len(s.suite);
    let value = finished_value(&s, side);
    Ok(is_same(received, &value[..h]))
}
