// Writes the journal of a list of calls: text on standard input, the journal on standard output. Of a text that has a bad
// line only a message is written, on standard error.
#![tactic(auto)]

use input::read_full;
use script::journal_of;
use std::io;
use std::io::Print;

// The longest text. Each buffer is fixed memory, so that reading cannot run out.
const MAX: usize = 262144;

fn main(rt: HostRuntime) -> io::Result<()> {
    let mut stdin = rt.stdin();
    let mut text = [0u8; 262145];
    let n = read_full(&mut stdin, &mut text)?;
    if MAX < n {
        return eprintln!(rt; "the input is over 262,144 bytes");
    }
    let mut body = [0u8; 131072];
    let mut out = [0u8; 65536];
    match journal_of(&text[..n], &mut body, &mut out) {
        Ok(size) => rt.stdout().write_all(&out[..size]),
        Err(bad) => eprintln!(rt; "{bad}"),
    }
}
