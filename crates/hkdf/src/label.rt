// HKDF-Expand-Label and Derive-Secret (RFC 8446, section 7.1).
ghost use Rattle.std.specs.Prelude.{◌≡◌, ◌∷◌, ◌+◌, ◌*◌, ◌/◌, ◌%◌, ◌≤◌, length};
ghost use Rattle.buffer.specs.Buffer.{fronted};
ghost use Rattle.refusal.specs.Answered.{Answered};
ghost use Rattle.suite.specs.Suite.{hash_length};
ghost use Rattle.hkdf.specs.Rfc8446.{tls13, expand_label, derive_secret};
ghost use Rattle.hkdf.specs.Refusals.{expand_label_number, derive_secret_number};

use super::expand::fill;
use super::judges;
use hmac::Keyed;
use oneshot::digest;
use refusal::Answer;
use suite::Suite;

// The HkdfLabel before a label of n bytes: the asked length, the length of the prefix and the label, the prefix "tls13 ".
pub fn head(asked: usize, n: usize) -> [u8; 9]
    ensures { result ≡ asked / 256 % 256 ∷ asked % 256 ∷ (6 + n) % 256 ∷ tls13 }
{
    let [.., high, low] = asked.to_be_bytes();
    let length = ((6 + n % 256) % 256) as u8;
    [high, low, length, b't', b'l', b's', b'1', b'3', b' ']
}

// Writes the asked bytes of Expand-Label to the front of out.
fn fill_label(suite: u16, secret: &[u8], label: &[u8], context: &[u8], asked: usize, out: &mut [u8])
    requires { (length label.now ≤ 249) × (length context.now ≤ 255) × (asked ≤ 255 * hash_length suite) × (asked ≤ length out.old) }
    ensures { out.new ≡ fronted (expand_label suite secret.now label.now context.now asked) out.old }
{
    let head = head(asked, label.len());
    // The remainder, as any length is written; `u8::try_from` would ask for a case that no call reaches.
    let size = [(context.len() % 256) as u8];
    let k = Keyed::prepare(suite, secret);
    fill(suite, &k, &[&head, label, &size, context], asked, out);
}

// Writes the asked bytes of Expand-Label(secret, label, context, asked) to the front of out. Refusals 2, 4, 10 and 11.
pub fn expand_label(
    suite: u16,
    secret: &[u8],
    label: &[u8],
    context: &[u8],
    asked: usize,
    out: &mut [u8],
) -> Answer
    ensures { Answered (expand_label_number suite (length secret.now) (length label.now) (length context.now) asked (length out.old)) (expand_label suite secret.now label.now context.now asked) out.old result out.new }
{
    judges::expand_label(
        suite,
        secret.len(),
        label.len(),
        context.len(),
        asked,
        out.len(),
    )?;
    fill_label(suite, secret, label, context, asked, out);
    Ok(asked)
}

// Writes Derive-Secret(secret, label, messages) to the front of out: H bytes. The context is the hash of the messages.
// Refusals 2, 4, 9, 10 and 11.
pub fn derive_secret(
    suite: u16,
    secret: &[u8],
    label: &[u8],
    messages: &[u8],
    out: &mut [u8],
) -> Answer
    ensures { Answered (derive_secret_number suite (length secret.now) (length label.now) (length messages.now) (length out.old)) (derive_secret suite secret.now label.now messages.now) out.old result out.new }
{
    judges::derive_secret(suite, secret.len(), label.len(), messages.len(), out.len())?;
    let h = Suite::hash_len(suite);
    let context = digest(suite, messages);
    fill_label(suite, secret, label, &context[..h], h, out);
    Ok(h)
}
