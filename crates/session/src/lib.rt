// The session of document 01: its record, a fresh one, and Close.
#![tactic(auto)]

pub mod close;

ghost use Rattle.std.specs.Prelude.{◌≡◌};
ghost use Rattle.book.specs.Book.{blank_at, fresh};
ghost use Rattle.session.specs.Session.{blank_running, session_of};

use book::points::{FRESH, NO_MESSAGE};
use suite_hash::running::Running;

// Numbers and arrays only, so that every bit pattern is a session; and no padding, so that two sessions with equal fields are
// equal in every byte. Each secret lies in 48 bytes with zeros behind it. kind is the PSK's, early is 1 once Early was
// accepted, stage is how far the messages have come (book::points), transcript the running hash of the messages fed. The
// five that name something are numbers and no enums, since C lends any bytes as a session: `encoding`'s decoded gives each
// of their values, and the calls answer each (Done, "of every session record").
#[derive(Clone, Copy)]
pub struct Session {
    pub suite: u16,
    pub kind: u8,
    pub early: u8,
    pub point: u16,
    pub stage: u16,
    pub client_updates: u32,
    pub server_updates: u32,
    pub transcript: Running,
    pub chain: [u8; 48],
    pub binder_key: [u8; 48],
    pub client_early: [u8; 48],
    pub early_exporter: [u8; 48],
    pub client_handshake: [u8; 48],
    pub server_handshake: [u8; 48],
    pub client_application: [u8; 48],
    pub server_application: [u8; 48],
    pub exporter: [u8; 48],
    pub resumption: [u8; 48],
}

#[tactic(auto, unfolding(buffer::specs::Buffer::zeros))]
fn blank() -> Running
    ensures { result ≡ blank_running }
{
    Running {
        state: [0; 8],
        block: [0; 128],
        count: 0,
    }
}

// A fresh session.
#[tactic(auto, unfolding(crate::specs::Session::session_of, book::specs::Messages::stage_from))]
pub fn fresh() -> Session
    ensures { result ≡ session_of (blank_at fresh) }
{
    let h = blank();
    let z = buffer::zeros();
    Session {
        suite: 0,
        kind: 0,
        early: 0,
        point: FRESH,
        stage: NO_MESSAGE,
        client_updates: 0,
        server_updates: 0,
        transcript: h,
        chain: z,
        binder_key: z,
        client_early: z,
        early_exporter: z,
        client_handshake: z,
        server_handshake: z,
        client_application: z,
        server_application: z,
        exporter: z,
        resumption: z,
    }
}
