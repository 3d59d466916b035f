// What two source documents would make in place of the session's values, worked out with the lower calls; the operations
// print differs or same, or the refusal. Document 002's exporter lacks the inner Derive-Secret; document 003 feeds each
// chain secret straight into the next, and takes zeros as the key of the last step.
//   draft-export NAME LENGTH LABEL CONTEXT; draft-handshake GROUP 0 SECRET; draft-master
use super::output::{Outcome, Value, Word};
use application_stage::application;
use extract::extract;
use handshake_stage::handshake;
use hkdf::label::expand_label;
use oneshot::hash;
use outputs::export::export;
use refusal::Answer;
use session::Session;
use suite::Suite;

// Compares what the session's call and the draft's made.
fn compare(value: &[u8], draft: &[u8]) -> Outcome<'static> {
    Ok(Value::Word(if value == draft {
        Word::Same
    } else {
        Word::Differs
    }))
}

// Expand-Label over the exporter's secret itself.
fn draft_export(
    suite: u16,
    secret: &[u8],
    asked: usize,
    label: &[u8],
    context: &[u8],
    out: &mut [u8],
) -> Answer {
    let mut digest = [0u8; 48];
    hash(suite, context, &mut digest)?;
    let h = Suite::hash_len(suite);
    expand_label(suite, secret, label, &digest[..h], asked, out)
}

pub(crate) fn compare_export(
    s: Session,
    name: u8,
    asked: usize,
    label: &[u8],
    context: &[u8],
) -> Outcome<'static> {
    let mut value = [0u8; 512];
    export(s, name, label, context, asked, &mut value)?;
    let secret = match name {
        1 => s.early_exporter,
        _ => s.exporter,
    };
    let h = Suite::hash_len(s.suite);
    let mut draft = [0u8; 512];
    draft_export(s.suite, &secret[..h], asked, label, context, &mut draft)?;
    compare(&value, &draft)
}

pub(crate) fn compare_handshake(s: Session, group: u16, secret: &[u8]) -> Outcome<'static> {
    let next = handshake(s, group, secret)?;
    let h = Suite::hash_len(s.suite);
    let mut draft = [0u8; 48];
    extract(s.suite, &s.chain[..h], secret, &mut draft)?;
    compare(&next.chain, &draft)
}

pub(crate) fn compare_master(s: Session) -> Outcome<'static> {
    let next = application(s)?;
    let h = Suite::hash_len(s.suite);
    let key = [0u8; 48];
    let mut draft = [0u8; 48];
    extract(s.suite, &key[..h], &s.chain[..h], &mut draft)?;
    compare(&next.chain, &draft)
}
