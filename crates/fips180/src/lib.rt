// What tells SHA-256 and SHA-384 apart (FIPS 180-4, figure 1 and sections 2.2.2, 3.1, 4.1 and 4.2): the type of a word,
// what is done with words, and the round constants.
#![tactic(auto)]

ghost use Rattle.std.specs.Prelude.{◌≡◌, ◌<◌, ◌≤◌, ◌-◌, ◌*◌, ◌/◌, ◌%◌, ◌^◌, ℕ, List, length, map, get_or};
ghost use Rattle.std.specs.List.{range_with_len};
ghost use Rattle.std.specs.Mem.{type_size};
ghost use Rattle.std.specs.Int.Bits.{bit_and, bit_xor};
ghost use Rattle.fips180.specs.Words.{plus, bytes_of, number_from};
ghost use Rattle.fips180.specs.Variant.{Variant, Σ0, Σ1, σ0, σ1};
ghost use Rattle.fips180.specs.Hash.{digest_of};
ghost use Rattle.fips180.specs.Rows.{constants_at};

use std::ops::{BitAnd, BitXor, Not};

pub trait Sha2 {
    type Word: Copy
        + BitAnd<Output = Self::Word>
        + BitXor<Output = Self::Word>
        + Not<Output = Self::Word>;

    ghost variant: { Variant };

    // The number that a word is.
    ghost value: { Self.Word → ℕ };

    // Bytes of a word, of a block and of the digest, and the number of rounds.
    const BYTES: usize;

    ghost BYTES: { ℕ };

    const BLOCK: usize;

    ghost BLOCK: { ℕ };

    const DIGEST: usize;

    ghost DIGEST: { ℕ };

    const ROUNDS: usize;

    ghost ROUNDS: { ℕ };

    // The sum modulo 2 ^ w.
    fn plus(x: Self::Word, y: Self::Word) -> Self::Word
        ensures { value result ≡ plus variant.bits (value x) (value y) };

    // Σ0, Σ1, σ0 and σ1.
    fn upper0(x: Self::Word) -> Self::Word
        ensures { value result ≡ Σ0 variant (value x) };

    fn upper1(x: Self::Word) -> Self::Word
        ensures { value result ≡ Σ1 variant (value x) };

    fn lower0(x: Self::Word) -> Self::Word
        ensures { value result ≡ σ0 variant (value x) };

    fn lower1(x: Self::Word) -> Self::Word
        ensures { value result ≡ σ1 variant (value x) };

    // The constants of the sixteen rounds from round 16 q on.
    fn constants(q: usize) -> [Self::Word; 16]
        ensures { q * 16 < variant.rounds → map value result ≡ constants_at variant q };

    // The word that the bytes b are, high byte first.
    fn word(b: &[u8]) -> Self::Word
        ensures { length b.now ≡ variant.bytes → value result ≡ number_from 0 b.now };

    // Byte j of a word.
    fn byte(x: Self::Word, j: usize) -> u8
        ensures { result ≡ get_or (bytes_of variant.bytes (value x)) j 0 };

    // The low bits of a word that is kept in 64 bits, and such a word.
    fn cut(x: u64) -> Self::Word
        ensures { value result ≡ x % 2 ^ variant.bits };

    fn widened(x: Self::Word) -> u64
        ensures { result ≡ value x };

    ghost and_law: { (x y : Self.Word)
        → Self.Word.can_bitand x y × ((r : Self.Word) → Self.Word.bitand_gives x y r → value r ≡ bit_and (value x) (value y)) };

    ghost xor_law: { (x y : Self.Word)
        → Self.Word.can_bitxor x y × ((r : Self.Word) → Self.Word.bitxor_gives x y r → value r ≡ bit_xor (value x) (value y)) };

    ghost not_law: { (x : Self.Word)
        → Self.Word.can_not x × ((r : Self.Word) → Self.Word.not_gives x r → value r ≡ (2 ^ variant.bits - 1) - value x) };

    // Sixteen words fit in memory.
    ghost size_law: { type_size Self.Word.row ≤ 8 };

    // A block is sixteen words, and a digest is the first bytes of eight.
    ghost word_law: { (BYTES ≡ variant.bytes) × (0 < BYTES) × (BYTES ≤ 8) };

    ghost block_law: { (BLOCK ≡ variant.block) × (BLOCK ≡ 16 * BYTES) };

    ghost rounds_law: { (ROUNDS ≡ variant.rounds) × (ROUNDS % 16 ≡ 0) × (ROUNDS ≤ 80) };

    ghost digest_law: { (DIGEST ≡ variant.digest) × (DIGEST ≤ 48) × (DIGEST ≤ 8 * BYTES)
        × ((s : List ℕ)
        → digest_of variant s ≡ map (λ i. get_or (bytes_of variant.bytes (get_or s (i / variant.bytes) 0)) (i % variant.bytes) 0) (range_with_len 0 variant.digest)) };
}
