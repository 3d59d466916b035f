// SHA-256 (FIPS 180-4, sections 4.1.2, 4.2.2 and 6.2): its words, their functions and its constants, the hash value after
// whole blocks, and the digest.
#![tactic(auto)]

ghost use Rattle.std.specs.Prelude.{◌≡◌, ◌/◌, length, refl};
ghost use Rattle.std.proofs.Common.{lit<, lit≤};
ghost use Rattle.fips180.specs.Words.{bytes_of};
ghost use Rattle.fips180.specs.Hash.{digest_of};
ghost use Rattle.fips180.specs.Variant.{sha256};
ghost use Rattle.fips180.specs.Rows.{folded, digest_in48};

use compress::blocks;
use fips180::Sha2;

// The round constants, in rows of sixteen rounds (FIPS 180-4, section 4.2.2).
const K: [[u32; 16]; 4] = [
    [
        0x428a2f98, 0x71374491, 0xb5c0fbcf, 0xe9b5dba5, 0x3956c25b, 0x59f111f1, 0x923f82a4,
        0xab1c5ed5, 0xd807aa98, 0x12835b01, 0x243185be, 0x550c7dc3, 0x72be5d74, 0x80deb1fe,
        0x9bdc06a7, 0xc19bf174,
    ],
    [
        0xe49b69c1, 0xefbe4786, 0x0fc19dc6, 0x240ca1cc, 0x2de92c6f, 0x4a7484aa, 0x5cb0a9dc,
        0x76f988da, 0x983e5152, 0xa831c66d, 0xb00327c8, 0xbf597fc7, 0xc6e00bf3, 0xd5a79147,
        0x06ca6351, 0x14292967,
    ],
    [
        0x27b70a85, 0x2e1b2138, 0x4d2c6dfc, 0x53380d13, 0x650a7354, 0x766a0abb, 0x81c2c92e,
        0x92722c85, 0xa2bfe8a1, 0xa81a664b, 0xc24b8b70, 0xc76c51a3, 0xd192e819, 0xd6990624,
        0xf40e3585, 0x106aa070,
    ],
    [
        0x19a4c116, 0x1e376c08, 0x2748774c, 0x34b0bcb5, 0x391c0cb3, 0x4ed8aa4a, 0x5b9cca4f,
        0x682e6ff3, 0x748f82ee, 0x78a5636f, 0x84c87814, 0x8cc70208, 0x90befffa, 0xa4506ceb,
        0xbef9a3f7, 0xc67178f2,
    ],
];

pub struct Sha256;

// plus, word, byte and widened read as SHA-384's do: each is one call of the library on the word's own type, no plainer by
// a trait of its own.
impl Sha2 for Sha256 {
    type Word = u32;

    ghost variant = { sha256 };

    ghost value = { λ x. x };

    const BYTES: usize = 4;

    ghost BYTES = { 4 };

    const BLOCK: usize = 64;

    ghost BLOCK = { 64 };

    const DIGEST: usize = 32;

    ghost DIGEST = { 32 };

    const ROUNDS: usize = 64;

    ghost ROUNDS = { 64 };

    #[tactic(auto, unfolding(fips180::specs::Variant::sha256, fips180::specs::Words::plus))]
    fn plus(x: u32, y: u32) -> u32 {
        x.wrapping_add(y)
    }

    fn upper0(x: u32) -> u32 {
        x.rotate_right(2) ^ x.rotate_right(13) ^ x.rotate_right(22)
    }

    fn upper1(x: u32) -> u32 {
        x.rotate_right(6) ^ x.rotate_right(11) ^ x.rotate_right(25)
    }

    fn lower0(x: u32) -> u32 {
        x.rotate_right(7) ^ x.rotate_right(18) ^ (x >> 3)
    }

    fn lower1(x: u32) -> u32 {
        x.rotate_right(17) ^ x.rotate_right(19) ^ (x >> 10)
    }

    // Each row by a literal, so that the compiler knows its constants.
    fn constants(q: usize) -> [u32; 16] {
        match q {
            0 => K[0],
            1 => K[1],
            2 => K[2],
            _ => K[3],
        }
    }

    fn word(b: &[u8]) -> u32 {
        match b.first_chunk() {
            Some(bytes) => u32::from_be_bytes(*bytes),
            None => 0,
        }
    }

    fn byte(x: u32, j: usize) -> u8 {
        match x.to_be_bytes().get(j) {
            Some(byte) => *byte,
            None => 0,
        }
    }

    // A cast loses no bit here, so the remainder says which bits go.
    #[tactic(auto, unfolding(fips180::specs::Variant::sha256))]
    fn cut(x: u64) -> u32 {
        (x % 4294967296) as u32
    }

    fn widened(x: u32) -> u64 {
        x as u64
    }

    ghost and_law = { λ x y. (tt, (λ r e. e)) };

    ghost xor_law = { λ x y. (tt, (λ r e. e)) };

    ghost not_law = { unfold sha256 in λ x. (tt, (λ r e. e)) };

    ghost size_law = { lit≤ tt };

    ghost word_law = { unfold sha256 in (refl, lit< tt, lit≤ tt) };

    ghost block_law = { unfold sha256 in (refl, refl) };

    ghost rounds_law = { unfold sha256 in (refl, refl, lit≤ tt) };

    ghost digest_law = { unfold sha256 digest_of bytes_of in (refl, lit≤ tt, lit≤ tt, (λ s. refl)) };
}

// The hash value after all whole blocks of p, from the one before them.
pub fn fold(s: [u64; 8], p: &[u8]) -> [u64; 8]
    ensures { result ≡ folded sha256 s p.now (length p.now / sha256.block) }
{
    blocks::fold::<Sha256>(s, p)
}

// The digest of a hash value, in 48 bytes with zeros behind it.
pub fn digest(s: [u64; 8]) -> [u8; 48]
    ensures { result ≡ digest_in48 sha256 s }
{
    blocks::digest::<Sha256>(s)
}
