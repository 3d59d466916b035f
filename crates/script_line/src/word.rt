// The words of a line.
ghost use Rattle.std.specs.Prelude.{◌≡◌, ◌≤◌, length};
ghost use Rattle.script_line.specs.Words.{spaces, first_word, behind_word, word};

use text::field::field_end;

// How many spaces s starts with.
fn spaces(s: &[u8]) -> usize
    ensures { (result ≡ spaces s.now) × (result ≤ length s.now) }
{
    s.iter().take_while(|c| **c == b' ').count()
}

// The first word of s, and what stands behind it.
fn split_word(s: &[u8]) -> (&[u8], &[u8])
    ensures { (result.0.now ≡ first_word s.now) × (result.1.now ≡ behind_word s.now) }
{
    let unspaced = &s[spaces(s)..];
    unspaced.split_at(field_end(unspaced, 0))
}

// The word of s that has k words before it; empty where there is none.
pub(crate) fn word(s: &[u8], k: usize) -> &[u8]
    ensures { result.now ≡ word k s.now }
{
    let mut rest = s;
    for _ in 0..k {
        let (_, behind) = split_word(rest);
        rest = behind;
    }
    let (word, _) = split_word(rest);
    word
}
