// Handshake: the shared secret.
#![tactic(auto)]

mod groups;
mod numbers;

ghost use Rattle.std.specs.Prelude.{◌≡◌, [], length};
ghost use Rattle.refusal.specs.Refusal.{number};
ghost use Rattle.book.specs.Call.{Call};
ghost use Rattle.session.specs.Promise.{Done, after, plain};
ghost use Rattle.encoding.specs.Encoding.{session_bytes};
ghost use Rattle.lent.specs.Called.{Called, numbered};
ghost use Rattle.handshake_stage.specs.Kept.{HandshakeKept};

use book::points::HANDSHAKE;
use chain_secrets::handshake_secret;
use decoder::decode;
use derived_secrets::{HandshakeSecrets, handshake_secrets};
use encoder::encode;
use encoding::SESSION_BYTES;
use lent::NOT_A_SESSION;
use numbers::judge;
use refusal::Refusal;
use session::Session;

// The session with the secrets in their places.
fn handshake_kept(mut s: Session, chain: [u8; 48], made: HandshakeSecrets) -> Session
    ensures { HandshakeKept s chain made.client made.server result }
{
    let client = made.client;
    let server = made.server;
    let none = buffer::zeros();
    s.point = HANDSHAKE;
    s.chain = chain;
    s.binder_key = none;
    s.client_handshake = client;
    s.server_handshake = server;
    s
}

// At Early, after the ServerHello; goes to Handshake. Refusals 1, 2, 4, 5 and 6. A group is a number, since C gives any and
// handshake_number refuses an unknown one with 2.
pub fn handshake(s: Session, group: u16, secret: &[u8]) -> Result<Session, Refusal>
    ensures { Done s (Call.Handshake group secret.now) (after s result) (plain result) }
{
    judge(s.point, s.stage, s.kind, group, secret)?;
    let suite = s.suite;
    let running = s.transcript;
    let early = s.chain;
    let hash = running.digest(suite);
    let chain = handshake_secret(suite, early, secret);
    let made = handshake_secrets(suite, chain, hash);
    Ok(handshake_kept(s, chain, made))
}

// On the bytes of a session, which is decoded again when the secrets are made: no session lies on the stack while they are.
fn change(session: &mut [u8], group: u16, secret: &[u8]) -> Result<(), Refusal>
    requires { length session.old ≡ session_bytes }
    ensures { Called session.old (Call.Handshake group secret.now) [] session.new (numbered (number result)) }
{
    let before = decode(session);
    judge(before.point, before.stage, before.kind, group, secret)?;
    let suite = before.suite;
    let running = before.transcript;
    let early = before.chain;
    let hash = running.digest(suite);
    let chain = handshake_secret(suite, early, secret);
    let made = handshake_secrets(suite, chain, hash);
    let after = handshake_kept(decode(session), chain, made);
    encode(after, session);
    Ok(())
}

// The same on the bytes of a session.
pub fn handshake_lent(session: &mut [u8], group: u16, secret: &[u8]) -> u8
    ensures { Called session.old (Call.Handshake group secret.now) [] session.new (numbered result) }
{
    if session.len() != SESSION_BYTES {
        return NOT_A_SESSION;
    }
    refusal::number(change(session, group, secret))
}
