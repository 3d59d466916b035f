// The end of a message (FIPS 180-4, section 5.1).
ghost use Rattle.std.specs.Prelude.{◌≡◌, ◌-◌, ◌%◌, ◌^◌, ◌<◌, ◌∷◌, ◌++◌, length, take};
ghost use Rattle.buffer.specs.Buffer.{zeros, overwrite};
ghost use Rattle.fips180.specs.Padding.{padding, words_of};
ghost use Rattle.fips180.specs.Hash.{compress};
ghost use Rattle.fips180.specs.Rows.{cut};
ghost use Rattle.suite_hash.specs.Variants.{variant_of};
ghost use Rattle.suite_hash.specs.Running.{absorbed};

use super::blocks::{compress, place};
use super::running::Running;
use suite::Suite;

// Writes the byte 80 and zeros behind the first at bytes of a block.
pub(crate) fn end(block: &mut [u8], at: usize)
    requires { (at < 128) × (length block.old ≡ 128) }
    ensures { block.new ≡ take at block.old ++ 0x80 ∷ zeros (127 - at) }
{
    for i in at..128 {
        block[i] = 0;
    }
    block[at] = 0x80;
}

// Takes the hash value on over the last block, with the length in bits at its end.
#[tactic(auto, using(crate::proofs::Sound::places))]
pub(crate) fn last(suite: u16, h: &mut Running, bits: [u8; 8])
    ensures { h.new.state ≡ compress (variant_of suite) (cut (variant_of suite) h.old.state) (words_of (variant_of suite) 16 (take (variant_of suite).block (overwrite ((variant_of suite).block - 8) bits h.old.block))) }
{
    let b = Suite::block_len(suite);
    buffer::put(&mut h.block, b - 8, &bits);
    compress(suite, &mut h.state, &h.block);
}

// Takes the hash value on over the padding. The rest of the running hash is used up. Apart from its caller, so that what the
// caller keeps for the digest is not on the stack meanwhile.
#[inline(never)]
#[tactic(auto, using(crate::proofs::Sound::places))]
pub(crate) fn pad(suite: u16, h: &mut Running)
    ensures { h.new.state ≡ (absorbed (variant_of suite) h.old (padding (variant_of suite) (h.old.count % 2 ^ 61))).state }
{
    let b = Suite::block_len(suite);
    let count = h.count;
    let at = place(suite, count);
    let bits = (count % 2305843009213693952 * 8).to_be_bytes();
    end(&mut h.block, at);
    if at + 1 + b / 8 <= b {
        last(suite, h, bits);
        return;
    }
    compress(suite, &mut h.state, &h.block);
    h.block = buffer::zeros();
    last(suite, h, bits);
}
