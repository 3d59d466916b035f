// Reads a journal from standard input, replays it on a fresh session, and prints a line for each record.
#![tactic(auto)]

use input::read_full;
use std::io;
use std::io::Print;

// Room for one byte more than the longest journal, and for the longest text: fixed memory, so that reading cannot run out.
fn main(rt: HostRuntime) -> io::Result<()> {
    let mut stdin = rt.stdin();
    let mut input = [0u8; 65537];
    let n = read_full(&mut stdin, &mut input)?;
    let mut out = [0u8; 131082];
    let answer = report::report(&input[..n], &mut out);
    let written = refusal::count(answer);
    rt.stdout().write_all(&out[..written])
}
