// What is printed of a line that ends in bytes, and behind the lines of the records.
use hex_text::put_hex;
use session::Session;
use std::fmt::Write;
use std::io::{Print, Stdout};
use std::{fmt, io};

// The room of a line.
const ROOM: usize = 2176;

// The most bytes whose digits are put at once: they fit behind the words of a line, which have at most 52 characters.
const PIECE: usize = 1024;

// A line, put together in fixed memory that each line uses again: a short line takes one write.
#[derive(Drop)]
pub(crate) struct Line {
    text: [u8; ROOM],
    len: usize,
}

// As with `buffer::put` a text is put whole or not at all. Words are put at the front of the room, where they fit.
impl fmt::Write for Line {
    fn write_str(&mut self, s: &str) -> fmt::Result {
        self.put(s.as_bytes());
        Ok(())
    }
}

impl Line {
    pub(crate) fn new() -> Self {
        Self {
            text: [0; ROOM],
            len: 0,
        }
    }

    fn put(&mut self, text: &[u8]) {
        self.len = buffer::put(&mut self.text, self.len, text);
    }

    // Writes what was put, and begins anew.
    fn flush(&mut self, stdout: Stdout) -> io::Result<()> {
        let n = self.len.min(ROOM);
        self.len = 0;
        stdout.write_all(&self.text[..n])
    }

    // Puts bytes as hex digits; - for none. What has no room left is written first.
    fn put_bytes(&mut self, stdout: Stdout, bytes: &[u8]) -> io::Result<()> {
        if bytes.is_empty() {
            self.put(b"-");
        }
        for piece in bytes.chunks(PIECE) {
            if (ROOM - self.len.min(ROOM)) / 2 < piece.len() {
                self.flush(stdout)?;
            }
            self.len = put_hex(&mut self.text, self.len, piece);
        }
        Ok(())
    }

    // Prints words, a space, and bytes.
    pub(crate) fn say<D: fmt::Display + Drop>(
        &mut self,
        stdout: Stdout,
        words: D,
        bytes: &[u8],
    ) -> io::Result<()> {
        self.len = 0;
        write!(self, "{words} ").map_err(|_| io::Error::other("formatter error"))?;
        self.put_bytes(stdout, bytes)?;
        self.put(b"\n");
        self.flush(stdout)
    }
}

// The session's point and its ten places.
pub(crate) fn say_session(stdout: Stdout, line: &mut Line, s: &Session) -> io::Result<()> {
    println!(stdout; "point {}", s.point)?;
    let places = [
        &s.chain,
        &s.binder_key,
        &s.client_early,
        &s.early_exporter,
        &s.client_handshake,
        &s.server_handshake,
        &s.client_application,
        &s.server_application,
        &s.exporter,
        &s.resumption,
    ];
    for (ordinal, place) in (1u8..).zip(places) {
        line.say(stdout, format_args!("place {ordinal}"), place)?;
    }
    Ok(())
}
