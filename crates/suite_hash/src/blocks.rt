// Blocks, in the hash of a suite.
ghost use Rattle.std.specs.Prelude.{◌≡◌, ◌*◌, ◌/◌, ◌%◌, ◌≤◌, length, take};
ghost use Rattle.fips180.specs.Padding.{words_of};
ghost use Rattle.fips180.specs.Hash.{compress};
ghost use Rattle.fips180.specs.Rows.{cut, folded, digest_in48};
ghost use Rattle.suite_hash.specs.Variants.{variant_of};

use suite::{Hash, Suite};

// The initial hash values (FIPS 180-4, section 5.3).
const H256: [u64; 8] = [
    0x6a09e667, 0xbb67ae85, 0x3c6ef372, 0xa54ff53a, 0x510e527f, 0x9b05688c, 0x1f83d9ab, 0x5be0cd19,
];

const H384: [u64; 8] = [
    0xcbbb9d5dc1059ed8,
    0x629a292a367cd507,
    0x9159015a3070dd17,
    0x152fecd8f70e5939,
    0x67332667ffc00b31,
    0x8eb44a8768581511,
    0xdb0c2e0d64f98fa7,
    0x47b5481dbefa4fa4,
];

// Each function matches on the hash for itself: which one a suite has is known only when a call runs.
#[tactic(auto, unfolding(crate::specs::Variants::variant_of, fips180::specs::Variant::sha256, fips180::specs::Variant::sha384))]
pub fn initial(suite: u16) -> [u64; 8]
    ensures { result ≡ (variant_of suite).H0 }
{
    match Suite::hash(suite) {
        Hash::Sha256 => H256,
        Hash::Sha384 => H384,
    }
}

// Takes the hash value s on over all whole blocks of p.
#[tactic(auto, unfolding(crate::specs::Variants::variant_of))]
pub fn fold(suite: u16, s: &mut [u64; 8], p: &[u8])
    ensures { s.new ≡ folded (variant_of suite) s.old p.now (length p.now / (variant_of suite).block) }
{
    *s = match Suite::hash(suite) {
        Hash::Sha256 => sha256::fold(*s, p),
        Hash::Sha384 => sha384::fold(*s, p),
    };
}

// Takes the hash value s on over the block at the front of p.
pub(crate) fn compress(suite: u16, s: &mut [u64; 8], p: &[u8])
    requires { 128 ≤ length p.now }
    ensures { s.new ≡ compress (variant_of suite) (cut (variant_of suite) s.old) (words_of (variant_of suite) 16 (take (variant_of suite).block p.now)) }
{
    let b = Suite::block_len(suite);
    fold(suite, s, &p[..b]);
}

// The digest of a hash value, in 48 bytes with zeros behind it. Apart from its caller, as the padding is.
#[inline(never)]
#[tactic(auto, unfolding(crate::specs::Variants::variant_of))]
pub(crate) fn digest(suite: u16, s: [u64; 8]) -> [u8; 48]
    ensures { result ≡ digest_in48 (variant_of suite) s }
{
    match Suite::hash(suite) {
        Hash::Sha256 => sha256::digest(s),
        Hash::Sha384 => sha384::digest(s),
    }
}

// The bytes that the block at hand holds, after count bytes.
#[tactic(auto, unfolding(crate::specs::Variants::variant_of, fips180::specs::Variant::sha256, fips180::specs::Variant::sha384))]
pub(crate) fn place(suite: u16, count: u64) -> usize
    ensures { result ≡ count % (variant_of suite).block }
{
    match Suite::hash(suite) {
        Hash::Sha256 => (count % 64) as usize,
        Hash::Sha384 => (count % 128) as usize,
    }
}

// How many of n bytes are whole blocks.
#[tactic(auto, unfolding(crate::specs::Variants::variant_of, fips180::specs::Variant::sha256, fips180::specs::Variant::sha384))]
pub(crate) fn whole(suite: u16, n: usize) -> usize
    ensures { result ≡ n / (variant_of suite).block * (variant_of suite).block }
{
    match Suite::hash(suite) {
        Hash::Sha256 => n / 64 * 64,
        Hash::Sha384 => n / 128 * 128,
    }
}
