// Early: the secrets for early data.
#![tactic(auto)]

ghost use Rattle.std.specs.Prelude.{◌≡◌, [], length};
ghost use Rattle.refusal.specs.Refusal.{number};
ghost use Rattle.book.specs.Call.{Call};
ghost use Rattle.book.specs.Refusals.{early_number};
ghost use Rattle.session.specs.Promise.{Done, after, plain};
ghost use Rattle.encoding.specs.Encoding.{session_bytes};
ghost use Rattle.lent.specs.Called.{Called, numbered};
ghost use Rattle.early_stage.specs.Kept.{EarlyKept};

use book::points::{AFTER_CLIENT_HELLO, EARLY};
use decoder::decode;
use derived_secrets::{EarlySecrets, early_secrets};
use encoder::encode;
use encoding::SESSION_BYTES;
use lent::NOT_A_SESSION;
use refusal::{Refusal, refuse_if};
use session::Session;

// Whether Early is refused, test by test as its definition reads (book/specs/Refusals).
#[tactic(auto, unfolding(book::specs::Refusals::early_number))]
fn judge(point: u16, stage: u16, ran: u8, kind: u8) -> Result<(), Refusal>
    ensures { number result ≡ early_number point stage ran kind }
{
    let ready = (point == EARLY) & ((stage == AFTER_CLIENT_HELLO) & (ran == 0));
    refuse_if(!ready, Refusal::NotAllowedHere)?;
    refuse_if(kind == 0, Refusal::NotHeld)
}

// The session with the secrets in their places.
fn early_kept(mut s: Session, made: EarlySecrets) -> Session
    ensures { EarlyKept s made.client made.exporter result }
{
    let client = made.client;
    let exporter = made.exporter;
    s.early = 1;
    s.client_early = client;
    s.early_exporter = exporter;
    s
}

// At Early, between ClientHello and ServerHello, once. Refusals 1 and 3.
pub fn early(s: Session) -> Result<Session, Refusal>
    ensures { Done s Call.Early (after s result) (plain result) }
{
    judge(s.point, s.stage, s.early, s.kind)?;
    let suite = s.suite;
    let running = s.transcript;
    let chain = s.chain;
    let hash = running.digest(suite);
    let made = early_secrets(suite, chain, hash);
    Ok(early_kept(s, made))
}

// On the bytes of a session, which is decoded again when the secrets are made: no session lies on the stack while they are.
fn change(session: &mut [u8]) -> Result<(), Refusal>
    requires { length session.old ≡ session_bytes }
    ensures { Called session.old Call.Early [] session.new (numbered (number result)) }
{
    let before = decode(session);
    judge(before.point, before.stage, before.early, before.kind)?;
    let suite = before.suite;
    let running = before.transcript;
    let chain = before.chain;
    let hash = running.digest(suite);
    let made = early_secrets(suite, chain, hash);
    let after = early_kept(decode(session), made);
    encode(after, session);
    Ok(())
}

// The same on the bytes of a session.
pub fn early_lent(session: &mut [u8]) -> u8
    ensures { Called session.old Call.Early [] session.new (numbered result) }
{
    if session.len() != SESSION_BYTES {
        return NOT_A_SESSION;
    }
    refusal::number(change(session))
}
