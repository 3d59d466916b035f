// What is printed of a line behind its name.
use hex_text::put_hex;
use refusal::Refusal;
use std::io::{Print, Stdout};
use std::{fmt, io};

// The value of an operation: a word, or bytes.
#[derive(Clone, Copy)]
pub(crate) enum Value<'a> {
    Word(Word),
    Bytes(&'a [u8]),
}

#[derive(Clone, Copy)]
pub(crate) enum Word {
    Done,
    Yes,
    No,
    Same,
    Differs,
}

impl fmt::Display for Word {
    fn fmt<W: fmt::Write>(&self, f: &mut fmt::Formatter<W>) -> fmt::Result {
        f.write_str(match *self {
            Word::Done => "done",
            Word::Yes => "yes",
            Word::No => "no",
            Word::Same => "same",
            Word::Differs => "differs",
        })
    }
}

// Why a line has no value.
#[derive(Clone, Copy)]
pub(crate) enum Fault {
    BadLine,
    Refused(Refusal),
}

impl From<Refusal> for Fault {
    fn from(why: Refusal) -> Fault {
        Fault::Refused(why)
    }
}

impl fmt::Display for Fault {
    fn fmt<W: fmt::Write>(&self, f: &mut fmt::Formatter<W>) -> fmt::Result {
        match *self {
            Fault::BadLine => f.write_str("bad line"),
            Fault::Refused(why) => {
                let number = why.number();
                write!(f, "refused {number}")
            }
        }
    }
}

// What an operation comes to.
pub(crate) type Outcome<'a> = Result<Value<'a>, Fault>;

// The n bytes that a call wrote to the front of room; it writes no more than there is room.
pub(crate) fn front(room: &[u8], n: usize) -> Outcome<'_> {
    Ok(Value::Bytes(&room[..n.min(room.len())]))
}

// The most characters of a line behind its name: a space, the digits of 512 bytes, and the line feed.
const ROOM: usize = 1026;

fn say_bytes(stdout: Stdout, bytes: &[u8]) -> io::Result<()> {
    let mut line = [0u8; ROOM];
    let space = buffer::put(&mut line, 0, b" ");
    let digits = put_hex(&mut line, space, bytes);
    let end = buffer::put(&mut line, digits, b"\n");
    stdout.write_all(&line[..end.min(ROOM)])
}

// The line behind its name.
pub(crate) fn say(stdout: Stdout, outcome: Outcome) -> io::Result<()> {
    match outcome {
        Ok(Value::Word(word)) => println!(stdout; " {word}"),
        Ok(Value::Bytes(bytes)) => say_bytes(stdout, bytes),
        Err(fault) => println!(stdout; " {fault}"),
    }
}
