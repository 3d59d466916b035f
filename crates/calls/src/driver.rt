// The records of the input, one behind the other.
ghost use Rattle.std.specs.Prelude.{◌<◌, length, IfSome};

use super::changes::change;
use super::journals::{make_read, make_write};
use super::lower::{
    make_derive_secret, make_expand, make_expand_label, make_extract, make_hash, make_hmac,
};
use super::output::{Line, say_session};
use super::payload::Payload;
use super::reads::{make_binder, make_check, make_export, make_finished, make_keys};
use super::reply::Reply;
use frames::{Frame, read};
use session::{Session, fresh};
use std::io::{Print, Stdout};
use std::{fmt, io};

// Makes the call of one record; none where it is no call that can be made. No enum of kinds: each number stands once,
// beside its call.
fn make<'a>(s: &mut Session, kind: u16, payload: &[u8], out: &'a mut [u8]) -> Option<Reply<'a>> {
    let p = Payload(payload);
    match kind {
        1..=8 => change(s, kind, p),
        101 => make_keys(*s, p, out),
        102 => make_finished(*s, p, out),
        103 => make_check(*s, p),
        104 => make_binder(*s, p, out),
        105 => make_export(*s, p, out),
        201 => make_hash(p, out),
        202 => make_hmac(p, out),
        203 => make_extract(p, out),
        204 => make_expand(p, out),
        205 => make_expand_label(p, out),
        206 => make_derive_secret(p, out),
        301 => make_write(p, out),
        302 => make_read(p),
        _ => None,
    }
}

// The first record: its kind, its payload, and what stands behind it; none where it is cut short.
#[tactic(auto, using(frames::proofs::Laws::within))]
fn first(input: &[u8]) -> Option<(u16, &[u8], &[u8])>
    ensures { IfSome result (λ r. length r.2.now < length input.now) }
{
    match read(input, 0) {
        Frame::Record {
            kind,
            start,
            next,
            ..
        } => Some((kind, &input[start..next], &input[next..])),
        _ => None,
    }
}

// What the list comes to: the number of its records, or the ordinal of a bad one.
#[derive(Clone, Copy)]
enum Ending {
    End(u64),
    Bad(u64),
}

impl fmt::Display for Ending {
    fn fmt<W: fmt::Write>(&self, f: &mut fmt::Formatter<W>) -> fmt::Result {
        match self {
            Ending::End(records) => write!(f, "end {records}"),
            Ending::Bad(ordinal) => write!(f, "bad {ordinal}"),
        }
    }
}

fn run_all(
    stdout: Stdout,
    line: &mut Line,
    s: &mut Session,
    input: &[u8],
    out: &mut [u8],
) -> io::Result<Ending> {
    let mut records = 0;
    let mut rest = input;
    // No `for`: each turn goes on by a record's own length.
    while !rest.is_empty() {
        records += 1;
        let Some((kind, payload, behind)) = first(rest) else {
            return Ok(Ending::Bad(records));
        };
        let Some(reply) = make(s, kind, payload, out) else {
            return Ok(Ending::Bad(records));
        };
        match reply {
            Reply::Lent(_, lent) => {
                line.say(stdout, format_args!("{records} {kind} {reply}"), lent)?;
            }
            _ => println!(stdout; "{records} {kind} {reply}")?,
        }
        rest = behind;
    }
    Ok(Ending::End(records))
}

pub(crate) fn run(stdout: Stdout, input: &[u8], out: &mut [u8]) -> io::Result<()> {
    let mut session = fresh();
    let mut line = Line::new();
    let ending = run_all(stdout, &mut line, &mut session, input, out)?;
    println!(stdout; "{ending}")?;
    say_session(stdout, &mut line, &session)
}
