// A session to the bytes that a caller keeps. Each part of it is copied before it is written, so that no whole session lies on
// the stack.
#![tactic(auto)]

ghost use Rattle.std.specs.Prelude.{◌≡◌, cond, ◌+◌, ◌≤◌, length, eqb};
ghost use Rattle.encoding.specs.Words.{le_words};
ghost use Rattle.encoding.specs.Encoding.{session_bytes, encoded_numbers, encoded_running, encoded_places, encoded};
ghost use Rattle.encoder.specs.Over.{Over};

use buffer::put;
use encoding::SESSION_BYTES;
use session::Session;
use suite_hash::running::Running;

// Writes eight words from index at on, and answers the index behind them.
#[inline(always)]
fn put_words(words: &[u64; 8], at: usize, out: &mut [u8]) -> usize
    requires { at + 64 ≤ length out.old }
    ensures { Over at out.old out.new result (le_words words.now) 64 }
{
    let mut next = at;
    for word in words {
        next = put(out, next, &word.to_le_bytes());
    }
    next
}

// Writes the numbers to the front.
#[inline(always)]
fn put_numbers(s: &Session, out: &mut [u8]) -> usize
    requires { 16 ≤ length out.old }
    ensures { Over 0 out.old out.new result (encoded_numbers s.now) 16 }
{
    let a = put(out, 0, &s.suite.to_le_bytes());
    let b = put(out, a, &s.kind.to_le_bytes());
    let c = put(out, b, &s.early.to_le_bytes());
    let d = put(out, c, &s.point.to_le_bytes());
    let e = put(out, d, &s.stage.to_le_bytes());
    let f = put(out, e, &s.client_updates.to_le_bytes());
    put(out, f, &s.server_updates.to_le_bytes())
}

// Writes a running hash from index at on.
#[inline(always)]
fn put_running(h: &Running, at: usize, out: &mut [u8]) -> usize
    requires { at + 200 ≤ length out.old }
    ensures { Over at out.old out.new result (encoded_running h.now) 200 }
{
    let state = h.state;
    let block = h.block;
    let a = put_words(&state, at, out);
    let b = put(out, a, &block);
    put(out, b, &h.count.to_le_bytes())
}

// Writes the ten places from index at on.
#[inline(always)]
fn put_places(s: &Session, at: usize, out: &mut [u8]) -> usize
    requires { at + 480 ≤ length out.old }
    ensures { Over at out.old out.new result (encoded_places s.now) 480 }
{
    let chain = s.chain;
    let binder_key = s.binder_key;
    let client_early = s.client_early;
    let early_exporter = s.early_exporter;
    let client_handshake = s.client_handshake;
    let server_handshake = s.server_handshake;
    let client_application = s.client_application;
    let server_application = s.server_application;
    let exporter = s.exporter;
    let resumption = s.resumption;
    let a = put(out, at, &chain);
    let b = put(out, a, &binder_key);
    let c = put(out, b, &client_early);
    let d = put(out, c, &early_exporter);
    let e = put(out, d, &client_handshake);
    let f = put(out, e, &server_handshake);
    let g = put(out, f, &client_application);
    let h = put(out, g, &server_application);
    let i = put(out, h, &exporter);
    put(out, i, &resumption)
}

// Writes a session to a buffer; a buffer of another size is left as it is.
pub fn encode(s: Session, out: &mut [u8])
    ensures { out.new ≡ cond (eqb (length out.old) session_bytes) (encoded s) out.old }
{
    if out.len() != SESSION_BYTES {
        return;
    }
    let a = put_numbers(&s, out);
    let b = put_running(&s.transcript, a, out);
    put_places(&s, b, out);
}
