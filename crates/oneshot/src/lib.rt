// The hash of a whole input.
#![tactic(auto)]

ghost use Rattle.std.specs.Prelude.{◌≡◌, length, take};
ghost use Rattle.buffer.specs.Buffer.{placed};
ghost use Rattle.refusal.specs.Refusal.{number};
ghost use Rattle.refusal.specs.Answered.{Answered};
ghost use Rattle.suite_hash.specs.Hash.{hash, hash_number, max_input};

use refusal::{Answer, Refusal, refuse_if};
use suite::Suite;
use suite_hash::running::Running;

// The longest input that is taken.
pub const MAX_INPUT: usize = 2097152;

#[tactic(auto, unfolding(suite_hash::specs::Hash::hash_number))]
fn judge(suite: u16, n: usize, room: usize) -> Result<(), Refusal>
    ensures { number result ≡ hash_number suite n room }
{
    refuse_if(!Suite::is_known(suite), Refusal::Unknown)?;
    refuse_if(MAX_INPUT < n, Refusal::InputTooLong)?;
    refuse_if(room < Suite::hash_len(suite), Refusal::OutputTooShort)
}

// The digest of an input, in 48 bytes with zeros behind it. Of an input over the limit, which every call
// refuses, the bytes up to it are read. Apart from its callers, so that their frames stay small.
#[inline(never)]
pub fn digest(suite: u16, input: &[u8]) -> [u8; 48]
    ensures { result ≡ placed (hash suite (take max_input input.now)) }
{
    let n = MAX_INPUT.min(input.len());
    let mut h = Running::start(suite);
    h.absorb(suite, &input[..n]);
    h.finish(suite)
}

// Writes the digest of input to the front of out: H bytes. Refusals 2, 9 and 11.
pub fn hash(suite: u16, input: &[u8], out: &mut [u8]) -> Answer
    ensures { Answered (hash_number suite (length input.now) (length out.old)) (hash suite input.now) out.old result out.new }
{
    judge(suite, input.len(), out.len())?;
    let h = Suite::hash_len(suite);
    let d = digest(suite, input);
    buffer::put(out, 0, &d[..h]);
    Ok(h)
}
