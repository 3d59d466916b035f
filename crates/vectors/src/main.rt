// Test vectors: reads one vector a line from standard input and prints one line for each, the
// vector's name and its value.
#![tactic(auto)]

mod arguments;
mod calling;
mod drafts;
mod fields;
mod hashing;
mod keying;
mod line;
mod names;
mod output;
mod reading;

use input::read_full;
use std::io;

fn main(rt: HostRuntime) -> io::Result<()> {
    let mut stdin = rt.stdin();
    // Fixed memory: an input that is read without an allocation can not run out of it.
    let mut text = [0u8; 262144];
    let n = read_full(&mut stdin, &mut text)?;
    line::answer_all(rt.stdout(), &text[..n])
}
