// Application: the secrets for application data.
#![tactic(auto)]

ghost use Rattle.std.specs.Prelude.{◌≡◌, [], length};
ghost use Rattle.refusal.specs.Refusal.{number};
ghost use Rattle.book.specs.Call.{Call};
ghost use Rattle.book.specs.Refusals.{application_number};
ghost use Rattle.session.specs.Promise.{Done, after, plain};
ghost use Rattle.encoding.specs.Encoding.{session_bytes};
ghost use Rattle.lent.specs.Called.{Called, numbered};
ghost use Rattle.application_stage.specs.Kept.{ApplicationKept};

use book::points::{AFTER_SERVER_FINISHED, APPLICATION, HANDSHAKE};
use chain_secrets::master_secret;
use decoder::decode;
use derived_secrets::{ApplicationSecrets, application_secrets};
use encoder::encode;
use encoding::SESSION_BYTES;
use lent::NOT_A_SESSION;
use refusal::{Refusal, refuse_if};
use session::Session;

// Whether Application is refused, as its definition reads (book/specs/Refusals).
#[tactic(auto, unfolding(book::specs::Refusals::application_number))]
fn judge(point: u16, stage: u16) -> Result<(), Refusal>
    ensures { number result ≡ application_number point stage }
{
    let ready = (point == HANDSHAKE) & (stage == AFTER_SERVER_FINISHED);
    refuse_if(!ready, Refusal::NotAllowedHere)
}

// The session with the secrets in their places.
fn application_kept(mut s: Session, chain: [u8; 48], made: ApplicationSecrets) -> Session
    ensures { ApplicationKept s chain made.client made.server made.exporter result }
{
    let client = made.client;
    let server = made.server;
    let exporter = made.exporter;
    s.point = APPLICATION;
    s.chain = chain;
    s.client_application = client;
    s.server_application = server;
    s.exporter = exporter;
    s
}

// At Handshake, after the server's Finished; goes to Application. Refusal 1.
pub fn application(s: Session) -> Result<Session, Refusal>
    ensures { Done s Call.Application (after s result) (plain result) }
{
    judge(s.point, s.stage)?;
    let suite = s.suite;
    let running = s.transcript;
    let handshake = s.chain;
    let hash = running.digest(suite);
    let chain = master_secret(suite, handshake);
    let made = application_secrets(suite, chain, hash);
    Ok(application_kept(s, chain, made))
}

// On the bytes of a session, which is decoded again when the secrets are made: no session lies on the stack while they are.
fn change(session: &mut [u8]) -> Result<(), Refusal>
    requires { length session.old ≡ session_bytes }
    ensures { Called session.old Call.Application [] session.new (numbered (number result)) }
{
    let before = decode(session);
    judge(before.point, before.stage)?;
    let suite = before.suite;
    let running = before.transcript;
    let handshake = before.chain;
    let hash = running.digest(suite);
    let chain = master_secret(suite, handshake);
    let made = application_secrets(suite, chain, hash);
    let after = application_kept(decode(session), chain, made);
    encode(after, session);
    Ok(())
}

// The same on the bytes of a session.
pub fn application_lent(session: &mut [u8]) -> u8
    ensures { Called session.old Call.Application [] session.new (numbered result) }
{
    if session.len() != SESSION_BYTES {
        return NOT_A_SESSION;
    }
    refusal::number(change(session))
}
