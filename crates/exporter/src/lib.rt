// TLS-Exporter (RFC 8446, section 7.5).
#![tactic(auto)]

ghost use Rattle.std.specs.Prelude.{length, take};
ghost use Rattle.refusal.specs.Answered.{Answered};
ghost use Rattle.suite.specs.Suite.{hash_length, max_label};
ghost use Rattle.suite_hash.specs.Hash.{max_input};
ghost use Rattle.hkdf.specs.Refusals.{expand_label_number};
ghost use Rattle.schedule.specs.Schedule.{within, tls_exporter};

use hkdf::label::expand_label;
use oneshot::digest;
use refusal::Answer;
use schedule::over_nothing;
use suite::{MAX_LABEL, Suite};

// Writes the asked bytes that a label and a context export under an exporter secret to the front of out. Refusals 2, 10 and
// 11. Of a label or a context over its limit, which every call refuses, the bytes up to it are read.
pub fn tls_exporter(
    suite: u16,
    secret: [u8; 48],
    label: &[u8],
    context: &[u8],
    asked: usize,
    out: &mut [u8],
) -> Answer
    ensures { Answered (expand_label_number suite (hash_length suite) 8 (hash_length suite) asked (length out.old)) (tls_exporter suite (take (hash_length suite) secret) (within max_label label.now) (within max_input context.now) asked) out.old result out.new }
{
    let h = Suite::hash_len(suite);
    let n = label.len().min(MAX_LABEL);
    let derived = over_nothing(suite, secret, &label[..n]);
    let hashed = digest(suite, context);
    expand_label(suite, &derived[..h], b"exporter", &hashed[..h], asked, out)
}
