// The functions on words, and the round (FIPS 180-4, sections 4.1 and 6.2.2).
ghost use Rattle.std.specs.Prelude.{◌≡◌, map};
ghost use Rattle.fips180.specs.Words.{ch, maj};
ghost use Rattle.fips180.specs.Hash.{next_word, t1, t2, round, sums};

use fips180::Sha2;

fn ch<V: Sha2>(x: V::Word, y: V::Word, z: V::Word) -> V::Word
    ensures { V.value result ≡ ch V.variant.bits (V.value x) (V.value y) (V.value z) }
{
    (x & y) ^ (!x & z)
}

fn maj<V: Sha2>(x: V::Word, y: V::Word, z: V::Word) -> V::Word
    ensures { V.value result ≡ maj (V.value x) (V.value y) (V.value z) }
{
    (x & y) ^ (x & z) ^ (y & z)
}

// The word of the message schedule that comes 16, 15, 7 and 2 words after these.
#[tactic(auto, unfolding(fips180::specs::Hash::next_word))]
pub fn next_word<V: Sha2>(w16: V::Word, w15: V::Word, w7: V::Word, w2: V::Word) -> V::Word
    ensures { V.value result ≡ next_word V.variant (V.value w16) (V.value w15) (V.value w7) (V.value w2) }
{
    V::plus(V::plus(V::plus(V::lower1(w2), w7), V::lower0(w15)), w16)
}

#[tactic(auto, unfolding(fips180::specs::Hash::t1))]
fn t1<V: Sha2>(e: V::Word, f: V::Word, g: V::Word, h: V::Word, k: V::Word, w: V::Word) -> V::Word
    ensures { V.value result ≡ t1 V.variant (V.value e) (V.value f) (V.value g) (V.value h) (V.value k) (V.value w) }
{
    V::plus(
        V::plus(V::plus(V::plus(h, V::upper1(e)), ch::<V>(e, f, g)), k),
        w,
    )
}

#[tactic(auto, unfolding(fips180::specs::Hash::t2))]
fn t2<V: Sha2>(a: V::Word, b: V::Word, c: V::Word) -> V::Word
    ensures { V.value result ≡ t2 V.variant (V.value a) (V.value b) (V.value c) }
{
    V::plus(V::upper0(a), maj::<V>(a, b, c))
}

// One round, on the words a to h.
pub fn round<V: Sha2>(s: [V::Word; 8], k: V::Word, w: V::Word) -> [V::Word; 8]
    ensures { map V.value result ≡ round V.variant (map V.value s) (V.value k) (V.value w) }
{
    let [a, b, c, d, e, f, g, h] = s;
    let x = t1::<V>(e, f, g, h, k, w);
    let y = t2::<V>(a, b, c);
    [V::plus(x, y), a, b, c, V::plus(d, x), e, f, g]
}

// The sums, word by word.
pub fn sums<V: Sha2>(s: [V::Word; 8], x: [V::Word; 8]) -> [V::Word; 8]
    ensures { map V.value result ≡ sums V.variant (map V.value s) (map V.value x) }
{
    let mut r = s;
    for i in 0..8 {
        r[i] = V::plus(s[i], x[i]);
    }
    r
}
