// Bytes as hex digits.
#![tactic(auto)]

ghost use Rattle.std.specs.Prelude.{◌≡◌, ◌*◌, ◌<◌, ◌≤◌, length, IfOk, IfSome};
ghost use Rattle.buffer.specs.Buffer.{after, behind, fronted};
ghost use Rattle.hex_text.specs.Hex.{read_digit, hex_digit, hex_of, hex_run, unhex, read_hex, out_of};

// Why characters are not read as bytes: the index of the first one that is no digit, finds no room, or is missing.
#[derive(Clone, Copy, Debug, PartialEq, Eq)]
pub struct BadDigit {
    pub at: usize,
}

// The value of a hex digit, where c is one. The ranges stand here, and no `char::to_digit`, since the edits
// hex_value_digit and hex_value_range turn one of them.
#[tactic(auto, unfolding(crate::specs::Hex::hex_value, crate::specs::Hex::read_digit))]
pub fn hex_value(c: u8) -> Option<u8>
    ensures { (result ≡ read_digit c) × IfSome result (λ d. d < 16) }
{
    match c {
        b'0'..=b'9' => Some(c - b'0'),
        b'a'..=b'f' => Some(c - b'a' + 10),
        b'A'..=b'F' => Some(c - b'A' + 10),
        _ => None,
    }
}

// The lower-case hex digit of n % 16.
#[tactic(auto, unfolding(crate::specs::Hex::hex_digit))]
fn hex_digit(n: u8) -> u8
    ensures { result ≡ hex_digit n }
{
    let d = n % 16;
    if d < 10 { b'0' + d } else { b'a' - 10 + d }
}

// Writes two digits a byte to out from index at on, and answers the index behind them. Where they
// do not fit there nothing is written, and the answer is at.
#[tactic(auto, using(crate::proofs::Pairs::length_hex_of), unfolding(buffer::specs::Buffer::after, buffer::specs::Buffer::behind))]
pub fn put_hex(out: &mut [u8], at: usize, bytes: &[u8]) -> usize
    ensures { (result ≡ behind at (hex_of bytes.now) out.old) × (out.new ≡ after at (hex_of bytes.now) out.old) }
{
    if out.len() < at {
        return at;
    }
    if (out.len() - at) / 2 < bytes.len() {
        return at;
    }
    for (i, b) in bytes.iter().enumerate() {
        let j = at + i * 2;
        out[j] = hex_digit(*b / 16);
        out[j + 1] = hex_digit(*b);
    }
    at + bytes.len() * 2
}

// How many digits s starts with.
fn hex_run(s: &[u8]) -> usize
    ensures { (result ≡ hex_run s.now) × (result ≤ length s.now) }
{
    s.iter().take_while(|c| c.is_ascii_hexdigit()).count()
}

// Writes the bytes of the digits s to the front of out.
fn fill(s: &[u8], out: &mut [u8])
    requires { (hex_run s.now ≡ length s.now) × (length s.now ≤ length out.old * 2) }
    ensures { out.new ≡ fronted (unhex s.now) out.old }
{
    for (i, pair) in s.chunks_exact(2).enumerate() {
        let high = hex_value(pair[0]).unwrap();
        let low = hex_value(pair[1]).unwrap();
        out[i] = high * 16 + low;
    }
}

// Reads all of s as hex, into the front of out. Where that is not possible out is left as it is.
#[tactic(auto, unfolding(crate::specs::Hex::read_hex, crate::specs::Hex::out_of))]
pub fn get_hex(s: &[u8], out: &mut [u8]) -> Result<usize, BadDigit>
    ensures { (result ≡ read_hex s.now (length out.old)) × (out.new ≡ out_of result s.now out.old) × IfOk result (λ n. n ≤ length out.old) }
{
    let run = hex_run(s);
    let n = run / 2;
    if out.len() < n {
        return Err(BadDigit { at: out.len() * 2 });
    }
    if run < s.len() {
        return Err(BadDigit { at: run });
    }
    if run % 2 == 0 {
        fill(s, out);
        return Ok(n);
    }
    Err(BadDigit { at: run })
}
