// What a record's call comes to, and how it is printed.
use journal::record::{Reading, kind_of};
use refusal::verdict::{Verdict, is_yes};
use refusal::{Answer, Refusal};
use std::fmt;

#[derive(Clone, Copy)]
pub(crate) enum Reply<'a> {
    // Of a call that may change the session: its answer.
    Changed(Result<(), Refusal>),
    // Of a call that is lent an output: its answer, and the output after it.
    Lent(Answer, &'a [u8]),
    // Whether the received bytes are the Finished value.
    Judged(Verdict),
    // What stands at a place of a journal.
    Read(Reading),
}

// The answer's number and the count of bytes written, and what else the call gives back, but for the output: its bytes
// stand behind.
impl fmt::Display for Reply<'_> {
    fn fmt<W: fmt::Write>(&self, f: &mut fmt::Formatter<W>) -> fmt::Result {
        match *self {
            Reply::Changed(answer) => {
                let number = refusal::number(answer);
                write!(f, "{number} 0")
            }
            Reply::Lent(answer, _) => {
                let number = refusal::number(answer);
                let count = refusal::count(answer);
                write!(f, "{number} {count}")
            }
            Reply::Judged(verdict) => {
                let number = refusal::number(verdict);
                let word = if is_yes(verdict) { "yes" } else { "no" };
                write!(f, "{number} 0 {word}")
            }
            Reply::Read(
                Reading::Record {
                    call,
                    start,
                    len,
                    next,
                },
            ) => {
                let kind = kind_of(call);
                write!(f, "0 0 record {kind} {start} {len} {next}")
            }
            Reply::Read(Reading::End) => f.write_str("0 0 end"),
            Reply::Read(Reading::Damaged(why, place)) => {
                let number = why.number();
                write!(f, "{number} 0 bad {place}")
            }
        }
    }
}
