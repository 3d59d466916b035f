// The operations that read the session; they print the bytes, yes or no, or the refusal.
//   place N; keys NAME; finished SIDE; check SIDE 0 RECEIVED; binder 0000 0 HELLO; export NAME LENGTH LABEL CONTEXT
use super::arguments::Arguments;
use super::drafts::{compare_export, compare_handshake, compare_master};
use super::output::{Outcome, Value, Word, front};
use finished::binder::binder;
use finished::check::check;
use finished::finished::finished;
use outputs::export::export;
use outputs::keys::keys;
use refusal::verdict::is_yes;
use session::Session;

#[derive(Clone, Copy)]
pub(crate) enum Reading {
    Place,
    Keys,
    Finished,
    Check,
    Binder,
    Export,
    DraftExport,
    DraftHandshake,
    DraftMaster,
}

// One of the ten places, in the order of document 01's table; zeros for another number.
fn place(s: &Session, n: u8) -> &[u8; 48] {
    match n {
        1 => &s.chain,
        2 => &s.binder_key,
        3 => &s.client_early,
        4 => &s.early_exporter,
        5 => &s.client_handshake,
        6 => &s.server_handshake,
        7 => &s.client_application,
        8 => &s.server_application,
        9 => &s.exporter,
        10 => &s.resumption,
        _ => &[0; 48],
    }
}

impl Reading {
    pub(crate) fn value<'a>(
        self,
        s: Session,
        given: Arguments,
        room: &'a mut [u8; 512],
    ) -> Outcome<'a> {
        let Arguments {
            number,
            length,
            x,
            y,
        } = given;
        let name = u8::try_from(number).unwrap_or(u8::MAX);
        let n = match self {
            Reading::Place => buffer::put(room, 0, place(&s, name)),
            Reading::Keys => keys(s, name, room)?,
            Reading::Finished => finished(s, name, room)?,
            Reading::Binder => binder(s, x, room)?,
            Reading::Export => export(s, name, x, y, length, room)?,
            Reading::Check => {
                let verdict = check(s, name, x);
                verdict?;
                return Ok(Value::Word(if is_yes(verdict) { Word::Yes } else { Word::No }));
            }
            Reading::DraftExport => return compare_export(s, name, length, x, y),
            Reading::DraftHandshake => return compare_handshake(s, number, x),
            Reading::DraftMaster => return compare_master(s),
        };
        front(room, n)
    }
}
