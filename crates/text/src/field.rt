// The fields of a text.
ghost use Rattle.std.specs.Prelude.{◌≡◌, ◌≤◌, min, length};
ghost use Rattle.text.specs.Field.{field_len, field_end};

// How many characters s has before its first space or line feed.
fn field_len(s: &[u8]) -> usize
    ensures { (result ≡ field_len s.now) × (result ≤ length s.now) }
{
    s.iter().take_while(|c| **c != b' ' && **c != b'\n').count()
}

// The index of the first space or line feed of s at or behind from, or the length of s.
#[tactic(auto, unfolding(crate::specs::Field::field_end))]
pub fn field_end(s: &[u8], from: usize) -> usize
    ensures { (result ≡ field_end s.now from) × (min from (length s.now) ≤ result) × (result ≤ length s.now) }
{
    let start = from.min(s.len());
    start + field_len(&s[start..])
}
