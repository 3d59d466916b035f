// HMAC (RFC 2104) under a key that is prepared once. Every function here is total: the calls above judge lengths.
#![tactic(auto)]

ghost use Rattle.std.specs.Prelude.{◌≡◌, length, take};
ghost use Rattle.std.specs.List.{flat_map};
ghost use Rattle.suite.specs.Suite.{block_length};
ghost use Rattle.hmac.specs.Rfc2104.{key_block, xor_each};
ghost use Rattle.hmac.specs.Keyed.{keyed_of, closed, mac_of};

use suite::Suite;
use suite_hash::blocks::{fold, initial};
use suite_hash::running::Running;

// A key ready for use: the hash value after each of its pads.
#[derive(Clone, Copy)]
pub struct Keyed {
    pub inner: [u64; 8],
    pub outer: [u64; 8],
}

impl Keyed {
    pub fn prepare(suite: u16, key: &[u8]) -> Self
        ensures { result ≡ keyed_of suite key.now }
    {
        let b = Suite::block_len(suite);
        let mut pad = buffer::zeros();
        let mut inner = initial(suite);
        let mut outer = initial(suite);
        put_pad(suite, key, 0x36, &mut pad);
        fold(suite, &mut inner, &pad[..b]);
        put_pad(suite, key, 0x5c, &mut pad);
        fold(suite, &mut outer, &pad[..b]);
        Keyed { inner, outer }
    }

    // The outer hash over the digest of the inner one, in 48 bytes with zeros behind it. The inner one is used up.
    #[tactic(auto, unfolding(crate::specs::Keyed::closed))]
    pub fn close(&self, suite: u16, h: &mut Running) -> [u8; 48]
        ensures { result ≡ closed suite self.now.outer h.old }
    {
        let n = Suite::hash_len(suite);
        let digest = h.finish(suite);
        h.state = self.outer;
        h.block = buffer::zeros();
        h.count = Suite::block_len(suite) as u64;
        h.absorb(suite, &digest[..n]);
        h.finish(suite)
    }

    // HMAC of a message in its parts, in 48 bytes with zeros behind it. Apart from its callers, so that their frames stay small.
    #[inline(never)]
    #[tactic(auto, using(crate::proofs::Parts::runs), unfolding(crate::specs::Keyed::mac_of))]
    pub fn mac(&self, suite: u16, message: &[&[u8]]) -> [u8; 48]
        ensures { result ≡ mac_of suite self.now (flat_map (λ part. part.now) message.now) }
    {
        let mut h = Running {
            state: self.inner,
            block: buffer::zeros(),
            count: Suite::block_len(suite) as u64,
        };
        h.absorb_parts(suite, message);
        self.close(suite, &mut h)
    }
}

fn xor_each(block: &mut [u8], c: u8)
    ensures { block.new ≡ xor_each c block.old }
{
    for b in block.iter_mut() {
        *b ^= c;
    }
}

// Lays the key with zeros behind it, each byte XORed with the byte c, one block long at the front of pad.
fn put_pad(suite: u16, key: &[u8], c: u8, pad: &mut [u8; 128])
    ensures { (take (block_length suite) pad.new ≡ xor_each c (key_block suite key.now)) × (length pad.new ≡ 128) }
{
    let n = key.len().min(Suite::block_len(suite));
    *pad = buffer::zeros();
    buffer::put(pad, 0, &key[..n]);
    xor_each(pad, c);
}
