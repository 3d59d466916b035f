// The running hash: a message that comes in parts.
ghost use Rattle.std.specs.Prelude.{◌≡◌};
ghost use Rattle.std.specs.List.{flat_map};
ghost use Rattle.suite_hash.specs.Variants.{variant_of};
ghost use Rattle.suite_hash.specs.Running.{start, absorbed, finished};

use super::blocks::{compress, digest, fold, initial, place, whole};
use super::padding::pad;
use suite::Suite;

// The hash value of the whole blocks so far, the bytes since then with zeros behind them, and the
// number of bytes so far. One form serves both hashes: SHA-256 uses the low halves of the words and
// the first 64 bytes of the block.
#[derive(Clone, Copy)]
pub struct Running {
    pub state: [u64; 8],
    pub block: [u8; 128],
    pub count: u64,
}

impl Running {
    #[tactic(auto, unfolding(crate::specs::Running::start))]
    pub fn start(suite: u16) -> Self
        ensures { result ≡ start (variant_of suite) }
    {
        Running {
            state: initial(suite),
            block: buffer::zeros(),
            count: 0,
        }
    }

    // Absorbs x in place: first what the block at hand takes, then whole blocks straight from x, then what is left.
    #[inline(never)]
    #[tactic(auto, using(crate::proofs::Sound::places))]
    pub fn absorb(&mut self, suite: u16, x: &[u8])
        ensures { self.new ≡ absorbed (variant_of suite) self.old x.now }
    {
        let b = Suite::block_len(suite);
        let at = place(suite, self.count);
        let k = (b - at).min(x.len());
        buffer::put(&mut self.block, at, &x[..k]);
        self.count = self.count.wrapping_add(x.len() as u64);
        if at + k < b {
            return;
        }
        compress(suite, &mut self.state, &self.block);
        let rest = &x[k..];
        fold(suite, &mut self.state, rest);
        let w = whole(suite, rest.len());
        self.block = buffer::zeros();
        buffer::put(&mut self.block, 0, &rest[w..]);
    }

    // Absorbs a message in its parts.
    pub fn absorb_parts(&mut self, suite: u16, parts: &[&[u8]])
        ensures { self.new ≡ absorbed (variant_of suite) self.old (flat_map (λ part. part.now) parts.now) }
    {
        for part in parts {
            self.absorb(suite, part);
        }
    }

    // The digest of the bytes so far, in 48 bytes with zeros behind it. The running hash is used up.
    #[inline(always)]
    #[tactic(auto, unfolding(crate::specs::Running::finished))]
    pub fn finish(&mut self, suite: u16) -> [u8; 48]
        ensures { result ≡ finished (variant_of suite) self.old }
    {
        pad(suite, self);
        digest(suite, self.state)
    }

    // The same, where the running hash can go on.
    pub fn digest(self, suite: u16) -> [u8; 48]
        ensures { result ≡ finished (variant_of suite) self }
    {
        // By its parts: moved whole, the running hash lies in a caller's frame twice.
        let Running {
            state,
            block,
            count,
        } = self;
        let mut last = Running {
            state,
            block,
            count,
        };
        last.finish(suite)
    }
}
