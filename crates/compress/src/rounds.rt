// The rounds, sixteen at a time (FIPS 180-4, section 6.2.2).
ghost use Rattle.std.specs.Prelude.{◌≡◌, map};
ghost use Rattle.fips180.specs.Hash.{compress};
ghost use Rattle.fips180.specs.Rows.{advanced, rounds_with, words_at};

use super::functions::{next_word, round, sums};
use fips180::Sha2;

// The sixteen words of the message schedule after the sixteen words m, in two loops that are short enough to unroll: one loop
// of sixteen, here and in the rounds, takes a quarter more time.
fn first_words<V: Sha2>(m: [V::Word; 16]) -> [V::Word; 16]
    ensures { map V.value result ≡ advanced V.variant (map V.value m) 8 }
{
    let mut w = m;
    for i in 0..8 {
        w[i] = next_word::<V>(w[i], w[(i + 1) % 16], w[(i + 9) % 16], w[(i + 14) % 16]);
    }
    w
}

fn next_words<V: Sha2>(m: [V::Word; 16]) -> [V::Word; 16]
    ensures { map V.value result ≡ advanced V.variant (map V.value m) 16 }
{
    let mut w = first_words::<V>(m);
    for i in 8..16 {
        w[i] = next_word::<V>(w[i], w[(i + 1) % 16], w[(i + 9) % 16], w[(i + 14) % 16]);
    }
    w
}

// Sixteen rounds, with their constants and their words, likewise.
fn first_rounds<V: Sha2>(s: [V::Word; 8], k: [V::Word; 16], w: [V::Word; 16]) -> [V::Word; 8]
    ensures { map V.value result ≡ rounds_with V.variant (map V.value s) (map V.value k) (map V.value w) 8 }
{
    let mut x = s;
    for i in 0..8 {
        x = round::<V>(x, k[i], w[i]);
    }
    x
}

fn rounds<V: Sha2>(s: [V::Word; 8], k: [V::Word; 16], w: [V::Word; 16]) -> [V::Word; 8]
    ensures { map V.value result ≡ rounds_with V.variant (map V.value s) (map V.value k) (map V.value w) 16 }
{
    let mut x = first_rounds::<V>(s, k, w);
    for i in 8..16 {
        x = round::<V>(x, k[i], w[i]);
    }
    x
}

// The words of the sixteen rounds from round 16 q on, from those of the sixteen rounds before.
fn words_at<V: Sha2>(w: [V::Word; 16], q: usize) -> [V::Word; 16]
    ensures { map V.value result ≡ words_at V.variant (map V.value w) q }
{
    if q == 0 { w } else { next_words::<V>(w) }
}

// The hash value after the words of a block, from the one before it.
pub fn compress_words<V: Sha2>(s: [V::Word; 8], m: [V::Word; 16]) -> [V::Word; 8]
    ensures { map V.value result ≡ compress V.variant (map V.value s) (map V.value m) }
{
    let mut x = s;
    let mut w = m;
    for q in 0..V::ROUNDS / 16 {
        w = words_at::<V>(w, q);
        x = rounds::<V>(x, V::constants(q), w);
    }
    sums::<V>(s, x)
}
