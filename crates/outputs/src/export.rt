// Export: bytes for other uses (RFC 8446, section 7.5).
ghost use Rattle.std.specs.Prelude.{◌≡◌};
ghost use Rattle.book.specs.Call.{Call};
ghost use Rattle.session.specs.Promise.{Done, wrote};
ghost use Rattle.outputs.specs.Places.{exporter_place};

use super::numbers::{judge_export, length_in_force};
use exporter::tls_exporter;
use refusal::Answer;
use session::Session;

// The exporter secret of a name.
#[inline(always)]
fn exporter_place(s: &Session, name: u8) -> [u8; 48]
    ensures { result ≡ exporter_place s.now name }
{
    match name {
        1 => s.early_exporter,
        _ => s.exporter,
    }
}

// Names: 1 early, 2 regular. Refusals 1, 2, 3, 10 and 11.
pub fn export(
    s: Session,
    name: u8,
    label: &[u8],
    context: &[u8],
    asked: usize,
    out: &mut [u8],
) -> Answer
    ensures { Done s (Call.Export name label.now context.now asked out.old) s (wrote result out.new) }
{
    judge_export(&s, name, label.len(), context.len(), asked, out.len())?;
    let n = length_in_force(asked);
    let secret = exporter_place(&s, name);
    tls_exporter(s.suite, secret, label, context, n, out)
}
