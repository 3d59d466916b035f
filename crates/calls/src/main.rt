// Runs a list of calls from standard input, and prints what each answers.
#![tactic(auto)]

ghost use Rattle.std.specs.Prelude.{◌≤◌};

mod changes;
mod driver;
mod journals;
mod lower;
mod output;
mod payload;
mod reads;
mod reply;

use input::read_full;
use std::io;
use std::io::{Print, Stdin, Stdout};

// The longest input.
const MAX: usize = 3145728;

// Runs the calls of the input, of which no more than N bytes are read.
fn run<const N: usize>(mut stdin: Stdin, stdout: Stdout) -> io::Result<()>
    requires { N ≤ 3145729 }
{
    // Fixed memory: an input that is read without an allocation can not run out of it.
    let mut input = [0u8; N];
    let n = read_full(&mut stdin, &mut input)?;
    if MAX < n {
        return println!(stdout; "long");
    }
    let mut out = [0u8; 131072];
    driver::run(stdout, &input[..n], &mut out)
}

fn main(rt: HostRuntime) -> io::Result<()> {
    run::<3145729>(rt.stdin(), rt.stdout())
}
