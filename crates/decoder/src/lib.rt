// A session from the bytes that a caller keeps.
#![tactic(auto)]

ghost use Rattle.std.specs.Prelude.{◌≡◌, cond, ◌+◌, ◌≤◌, length, drop, eqb};
ghost use Rattle.book.specs.Book.{blank_at, fresh};
ghost use Rattle.session.specs.Session.{session_of};
ghost use Rattle.encoding.specs.Words.{words};
ghost use Rattle.encoding.specs.Encoding.{session_bytes, part, decoded_running, decoded};

use encoding::SESSION_BYTES;
use session::{Session, fresh};
use suite_hash::running::Running;

// The N bytes from index at on.
fn part<const N: usize>(b: &[u8], at: usize) -> [u8; N]
    requires { at + N ≤ length b.now }
    ensures { result ≡ part at N b.now }
{
    let mut r = buffer::zeros();
    buffer::put(&mut r, 0, &b[at..at + N]);
    r
}

// The eight words from index 16 on.
fn words(b: &[u8]) -> [u64; 8]
    requires { length b.now ≡ 696 }
    ensures { result ≡ words 8 (drop 16 b.now) }
{
    let mut r = [0; 8];
    for i in 0..8 {
        r[i] = u64::from_le_bytes(part(b, 16 + i * 8));
    }
    r
}

fn decode_running(b: &[u8]) -> Running
    requires { length b.now ≡ 696 }
    ensures { result ≡ decoded_running b.now }
{
    Running {
        state: words(b),
        block: part(b, 80),
        count: u64::from_le_bytes(part(b, 208)),
    }
}

// The session in a buffer; in a buffer of another size, a fresh one.
pub fn decode(b: &[u8]) -> Session
    ensures { result ≡ cond (eqb (length b.now) session_bytes) (decoded b.now) (session_of (blank_at fresh)) }
{
    if b.len() != SESSION_BYTES {
        return fresh();
    }
    Session {
        suite: u16::from_le_bytes(part(b, 0)),
        kind: b[2],
        early: b[3],
        point: u16::from_le_bytes(part(b, 4)),
        stage: u16::from_le_bytes(part(b, 6)),
        client_updates: u32::from_le_bytes(part(b, 8)),
        server_updates: u32::from_le_bytes(part(b, 12)),
        transcript: decode_running(b),
        chain: part(b, 216),
        binder_key: part(b, 264),
        client_early: part(b, 312),
        early_exporter: part(b, 360),
        client_handshake: part(b, 408),
        server_handshake: part(b, 456),
        client_application: part(b, 504),
        server_application: part(b, 552),
        exporter: part(b, 600),
        resumption: part(b, 648),
    }
}
