// A line: a name, an operation, and what the operation asks for, with one space between fields.
use super::arguments::Arguments;
use super::fields::cut;
use super::hashing::hash;
use super::names::Operation;
use super::output::{Fault, Outcome, Value, Word, say};
use session::{Session, fresh};
use std::io;
use std::io::{Print, Stdout};

// Makes an operation, and answers its value. Bytes are written to room.
fn value<'a>(
    session: &mut Session,
    name: &[u8],
    fields: &[u8],
    room: &'a mut [u8; 512],
) -> Outcome<'a> {
    let mut x = [0u8; 4096];
    let mut y = [0u8; 4096];
    match Operation::named(name).ok_or(Fault::BadLine)? {
        Operation::Hash => hash(fields, room),
        Operation::Keying(keying) => {
            let given = Arguments::all(fields, &mut x, &mut y).ok_or(Fault::BadLine)?;
            keying.value(given, room)
        }
        Operation::Change(change) => {
            let given = Arguments::some(fields, &mut x, &mut y).ok_or(Fault::BadLine)?;
            *session = change.call(*session, given)?;
            Ok(Value::Word(Word::Done))
        }
        Operation::Reading(reading) => {
            let given = Arguments::some(fields, &mut x, &mut y).ok_or(Fault::BadLine)?;
            reading.value(*session, given, room)
        }
    }
}

fn answer(stdout: Stdout, session: &mut Session, line: &[u8]) -> io::Result<()> {
    let (name, rest) = cut(line);
    let (operation, fields) = cut(rest);
    let mut room = [0u8; 512];
    stdout.write_all(name)?;
    say(stdout, value(session, operation, fields, &mut room))
}

pub(crate) fn answer_all(stdout: Stdout, text: &[u8]) -> io::Result<()> {
    let mut session = fresh();
    for line in text.split_inclusive(|b| *b == b'\n') {
        answer(
            stdout,
            &mut session,
            line.strip_suffix(b"\n").unwrap_or(line),
        )?;
    }
    Ok(())
}
