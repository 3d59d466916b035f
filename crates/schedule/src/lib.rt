// The key schedule of RFC 8446, section 7: values only, no state. A secret, and the hash of the messages so far, lies in 48
// bytes with zeros behind it. Here is what every derivation shares: Derive-Secret given the hash of the messages.
#![tactic(auto)]

ghost use Rattle.std.specs.Prelude.{◌≡◌, [], take};
ghost use Rattle.suite.specs.Suite.{hash_length};
ghost use Rattle.suite_hash.specs.Hash.{hash};
ghost use Rattle.hmac.specs.Keyed.{keyed_of};
ghost use Rattle.keyed.specs.Blocks.{label_block};

use empty::empty_digest;
use hmac::Keyed;
use keyed::{label_block, ready};
use suite::Suite;

// H bytes under a label, over the hash of the messages. It is lent, so that no copy of it lies on the stack.
pub fn derive(suite: u16, k: Keyed, label: &[u8], transcript: &[u8]) -> [u8; 48]
    ensures { result ≡ label_block suite k label.now transcript.now (hash_length suite) }
{
    let h = Suite::hash_len(suite);
    label_block(suite, k, label, transcript, h)
}

// H bytes under a label, over the hash of nothing.
pub fn over_nothing(suite: u16, secret: [u8; 48], label: &[u8]) -> [u8; 48]
    ensures { result ≡ label_block suite (keyed_of suite (take (hash_length suite) secret)) label.now (hash suite []) (hash_length suite) }
{
    let h = Suite::hash_len(suite);
    let k = ready(suite, secret);
    let nothing = empty_digest(suite);
    derive(suite, k, label, &nothing[..h])
}
