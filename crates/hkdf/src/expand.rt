// HKDF-Expand.
ghost use Rattle.std.specs.Prelude.{◌≡◌, List, [], ◌∷◌, ◌++◌, ℕ, ◌*◌, ◌≤◌, length};
ghost use Rattle.std.specs.List.{flat_map};
ghost use Rattle.buffer.specs.Buffer.{fronted};
ghost use Rattle.refusal.specs.Answered.{Answered};
ghost use Rattle.suite.specs.Suite.{hash_length};
ghost use Rattle.hmac.specs.Keyed.{keyed_of, mac_of};
ghost use Rattle.hkdf.specs.Rfc5869.{expand};
ghost use Rattle.hkdf.specs.Refusals.{expand_number};

use super::judges;
use hmac::Keyed;
use refusal::Answer;
use suite::Suite;
use suite_hash::running::Running;

// The block T(i) that follows the block t, of an info in its parts, under a prepared key.
#[tactic(auto, using(suite_hash::proofs::Suites::parts), unfolding(hmac::specs::Keyed::mac_of))]
fn next_block(suite: u16, k: &Keyed, t: &[u8], info: &[&[u8]], i: u8) -> [u8; 48]
    ensures { result ≡ mac_of suite k.now (t.now ++ (flat_map (λ part. part.now) info.now ++ (i ∷ []))) }
{
    let mut h = Running {
        state: k.inner,
        block: buffer::zeros(),
        count: Suite::block_len(suite) as u64,
    };
    h.absorb(suite, t);
    h.absorb_parts(suite, info);
    h.absorb(suite, &[i]);
    k.close(suite, &mut h)
}

// Writes the asked bytes for an info in its parts, a block at a time, each at its own place, the last cut short. The caller
// prepares the key, so that this frame is not on the stack meanwhile.
#[tactic(auto, using(crate::proofs::Values::some_hash))]
pub(crate) fn fill(suite: u16, k: &Keyed, info: &[&[u8]], asked: usize, out: &mut [u8])
    requires { (length (flat_map (λ part. part.now) info.now) ≤ 1024) × (asked ≤ 255 * hash_length suite) × (asked ≤ length out.old) }
    ensures { (secret : List ℕ) → k.now ≡ keyed_of suite secret → out.new ≡ fronted (expand suite secret (flat_map (λ part. part.now) info.now) asked) out.old }
{
    let h = Suite::hash_len(suite);
    let mut t: [u8; 48] = buffer::zeros();
    let mut size: usize = 0;
    for i in 0..asked.div_ceil(h) {
        t = next_block(suite, k, &t[..size], info, (i + 1) as u8);
        size = h;
        let at = i * h;
        let n = h.min(asked - at);
        buffer::put(out, at, &t[..n]);
    }
}

// Writes the asked bytes of output keying material to the front of out. Refusals 2, 4, 10 and 11.
pub fn expand(suite: u16, secret: &[u8], info: &[u8], asked: usize, out: &mut [u8]) -> Answer
    ensures { Answered (expand_number suite (length secret.now) (length info.now) asked (length out.old)) (expand suite secret.now info.now asked) out.old result out.new }
{
    judges::expand(suite, secret.len(), info.len(), asked, out.len())?;
    let k = Keyed::prepare(suite, secret);
    fill(suite, &k, &[info], asked, out);
    Ok(asked)
}
