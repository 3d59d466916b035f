// The hash value after whole blocks, and the digest (FIPS 180-4, section 6.2).
ghost use Rattle.std.specs.Prelude.{◌≡◌, ◌++◌, ◌/◌, ◌-◌, ◌<◌, length, map};
ghost use Rattle.buffer.specs.Buffer.{zeros};
ghost use Rattle.fips180.specs.Padding.{words_of};
ghost use Rattle.fips180.specs.Hash.{digest_of};
ghost use Rattle.fips180.specs.Rows.{cut, folded, digest_in48};

use super::rounds::compress_words;
use fips180::Sha2;

// The sixteen words of a block.
fn load<V: Sha2>(b: &[u8]) -> [V::Word; 16]
    requires { length b.now ≡ V.variant.block }
    ensures { map V.value result ≡ words_of V.variant 16 b.now }
{
    let mut w = [V::cut(0); 16];
    for i in 0..16 {
        let start = i * V::BYTES;
        w[i] = V::word(&b[start..start + V::BYTES]);
    }
    w
}

// The low bits of each word.
fn cut<V: Sha2>(s: [u64; 8]) -> [V::Word; 8]
    ensures { map V.value result ≡ cut V.variant s }
{
    let mut r = [V::cut(0); 8];
    for i in 0..8 {
        r[i] = V::cut(s[i]);
    }
    r
}

// The same eight words.
fn widened<V: Sha2>(s: [V::Word; 8]) -> [u64; 8]
    ensures { result ≡ map V.value s }
{
    let mut r = [0u64; 8];
    for i in 0..8 {
        r[i] = V::widened(s[i]);
    }
    r
}

// The hash value after all whole blocks of p, from the one before them.
pub fn fold<V: Sha2>(s: [u64; 8], p: &[u8]) -> [u64; 8]
    ensures { result ≡ folded V.variant s p.now (length p.now / V.variant.block) }
{
    if p.len() < V::BLOCK {
        return s;
    }
    let mut x = cut::<V>(s);
    for block in p.chunks_exact(V::BLOCK) {
        x = compress_words::<V>(x, load::<V>(block));
    }
    widened::<V>(x)
}

// The digest of eight words, with zeros behind it.
fn digest_words<V: Sha2>(s: [V::Word; 8]) -> [u8; 48]
    ensures { result ≡ digest_of V.variant (map V.value s) ++ zeros (48 - V.variant.digest) }
{
    let mut d = [0u8; 48];
    for i in 0..V::DIGEST {
        d[i] = V::byte(s[i / V::BYTES], i % V::BYTES);
    }
    d
}

// The digest of a hash value, in 48 bytes with zeros behind it.
pub fn digest<V: Sha2>(s: [u64; 8]) -> [u8; 48]
    ensures { result ≡ digest_in48 V.variant s }
{
    digest_words::<V>(cut::<V>(s))
}
