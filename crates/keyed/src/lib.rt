// A secret prepared as a key, HKDF-Extract, and the first block of HKDF-Expand-Label under such a key. Every function here
// is total: the calls above it judge lengths.
#![tactic(auto)]

ghost use Rattle.std.specs.Prelude.{◌≡◌, length, take};
ghost use Rattle.buffer.specs.Buffer.{placed};
ghost use Rattle.suite.specs.Suite.{hash_length};
ghost use Rattle.hmac.specs.Keyed.{keyed_of};
ghost use Rattle.hkdf.specs.Rfc5869.{extract};
ghost use Rattle.hkdf.specs.Refusals.{max_message};
ghost use Rattle.keyed.specs.Blocks.{label_block};

use hkdf::MAX_MESSAGE;
use hkdf::label::head;
use hmac::Keyed;
use suite::Suite;
use suite_hash::running::Running;

// A secret in its place of 48 bytes, as a prepared key.
pub fn ready(suite: u16, secret: [u8; 48]) -> Keyed
    ensures { result ≡ keyed_of suite (take (hash_length suite) secret) }
{
    let h = Suite::hash_len(suite);
    Keyed::prepare(suite, &secret[..h])
}

// HKDF-Extract, in 48 bytes with zeros behind it. Of an input over the limit, which every call refuses, the bytes up to it
// are read.
pub fn extract_value(suite: u16, salt: &[u8], input: &[u8]) -> [u8; 48]
    ensures { result ≡ placed (extract suite salt.now (take max_message input.now)) }
{
    let n = MAX_MESSAGE.min(input.len());
    let k = Keyed::prepare(suite, salt);
    k.mac(suite, &[&input[..n]])
}

// Keeps the first n bytes of t, with zeros behind them.
fn cut(t: &mut [u8], n: usize)
    requires { length t.old ≡ 48 }
    ensures { t.new ≡ placed (take n t.old) }
{
    for i in n.min(t.len())..t.len() {
        t[i] = 0;
    }
}

// The first block of Expand-Label, cut to what is asked, with zeros behind it.
pub fn label_block(suite: u16, k: Keyed, label: &[u8], context: &[u8], asked: usize) -> [u8; 48]
    ensures { result ≡ label_block suite k label.now context.now asked }
{
    let mut h = Running {
        state: k.inner,
        block: buffer::zeros(),
        count: Suite::block_len(suite) as u64,
    };
    h.absorb(suite, &head(asked, label.len()));
    h.absorb(suite, label);
    h.absorb(suite, &[(context.len() % 256) as u8]);
    h.absorb(suite, context);
    h.absorb(suite, &[1]);
    let mut t = k.close(suite, &mut h);
    cut(&mut t, asked);
    t
}
