// HMAC (RFC 2104), and HKDF-Extract (RFC 5869), which is HMAC with the salt as its key, as calls.
#![tactic(auto)]

ghost use Rattle.std.specs.Prelude.{◌≡◌, length};
ghost use Rattle.refusal.specs.Refusal.{number};
ghost use Rattle.refusal.specs.Answered.{Answered};
ghost use Rattle.hmac.specs.Rfc2104.{hmac};
ghost use Rattle.hkdf.specs.Rfc5869.{extract};
ghost use Rattle.hkdf.specs.Refusals.{mac_number};

use hkdf::MAX_MESSAGE;
use hmac::Keyed;
use refusal::{Answer, Refusal, refuse_if};
use suite::Suite;

#[tactic(auto, unfolding(hkdf::specs::Refusals::mac_number))]
fn judge(suite: u16, key: usize, message: usize, room: usize) -> Result<(), Refusal>
    ensures { number result ≡ mac_number suite key message room }
{
    refuse_if(!Suite::is_known(suite), Refusal::Unknown)?;
    refuse_if(Suite::block_len(suite) < key, Refusal::SecretSize)?;
    refuse_if(MAX_MESSAGE < message, Refusal::InputTooLong)?;
    refuse_if(room < Suite::hash_len(suite), Refusal::OutputTooShort)
}

// Writes the HMAC of a message under a key to the front of out: H bytes. Refusals 2, 4, 9 and 11.
pub fn hmac(suite: u16, key: &[u8], message: &[u8], out: &mut [u8]) -> Answer
    ensures { Answered (mac_number suite (length key.now) (length message.now) (length out.old)) (hmac suite key.now message.now) out.old result out.new }
{
    judge(suite, key.len(), message.len(), out.len())?;
    let h = Suite::hash_len(suite);
    let k = Keyed::prepare(suite, key);
    let t = k.mac(suite, &[message]);
    buffer::put(out, 0, &t[..h]);
    Ok(h)
}

// HKDF-Extract: the pseudorandom key of an input under a salt, to the front of out: H bytes. Refusals 2, 4, 9 and 11.
#[tactic(auto, unfolding(hkdf::specs::Rfc5869::extract))]
pub fn extract(suite: u16, salt: &[u8], input: &[u8], out: &mut [u8]) -> Answer
    ensures { Answered (mac_number suite (length salt.now) (length input.now) (length out.old)) (extract suite salt.now input.now) out.old result out.new }
{
    hmac(suite, salt, input, out)
}
