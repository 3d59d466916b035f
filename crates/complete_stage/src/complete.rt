// Complete: the end of the handshake.
ghost use Rattle.std.specs.Prelude.{◌≡◌, [], length};
ghost use Rattle.refusal.specs.Refusal.{number};
ghost use Rattle.book.specs.Call.{Call};
ghost use Rattle.book.specs.Refusals.{complete_number};
ghost use Rattle.session.specs.Promise.{Done, after, plain};
ghost use Rattle.encoding.specs.Encoding.{session_bytes};
ghost use Rattle.lent.specs.Called.{Called, numbered};
ghost use Rattle.complete_stage.specs.Kept.{CompleteKept};

use book::points::{AFTER_CLIENT_FINISHED, APPLICATION, COMPLETE};
use decoder::decode;
use derived_secrets::resumption_secret;
use encoder::encode;
use encoding::SESSION_BYTES;
use lent::NOT_A_SESSION;
use refusal::{Refusal, refuse_if};
use session::Session;

// Whether Complete is refused, as its definition reads (book/specs/Refusals).
#[tactic(auto, unfolding(book::specs::Refusals::complete_number))]
fn judge(point: u16, stage: u16) -> Result<(), Refusal>
    ensures { number result ≡ complete_number point stage }
{
    let ready = (point == APPLICATION) & (stage == AFTER_CLIENT_FINISHED);
    refuse_if(!ready, Refusal::NotAllowedHere)
}

// The session with the resumption secret in its place, and zeros in the places that are past.
fn complete_kept(mut s: Session, resumption: [u8; 48]) -> Session
    ensures { CompleteKept s resumption result }
{
    let none = buffer::zeros();
    s.point = COMPLETE;
    s.chain = none;
    s.client_early = none;
    s.early_exporter = none;
    s.client_handshake = none;
    s.server_handshake = none;
    s.resumption = resumption;
    s
}

// At Application, after the client's Finished; goes to Complete, where only the application, exporter and resumption secrets
// are left. Refusal 1.
pub fn complete(s: Session) -> Result<Session, Refusal>
    ensures { Done s Call.Complete (after s result) (plain result) }
{
    judge(s.point, s.stage)?;
    let suite = s.suite;
    let running = s.transcript;
    let master = s.chain;
    let hash = running.digest(suite);
    let resumption = resumption_secret(suite, master, hash);
    Ok(complete_kept(s, resumption))
}

// On the bytes of a session, which is decoded again when the secret is made: no session lies on the stack while it is.
fn change(session: &mut [u8]) -> Result<(), Refusal>
    requires { length session.old ≡ session_bytes }
    ensures { Called session.old Call.Complete [] session.new (numbered (number result)) }
{
    let before = decode(session);
    judge(before.point, before.stage)?;
    let suite = before.suite;
    let running = before.transcript;
    let master = before.chain;
    let hash = running.digest(suite);
    let resumption = resumption_secret(suite, master, hash);
    let after = complete_kept(decode(session), resumption);
    encode(after, session);
    Ok(())
}

// The same on the bytes of a session.
pub fn complete_lent(session: &mut [u8]) -> u8
    ensures { Called session.old Call.Complete [] session.new (numbered result) }
{
    if session.len() != SESSION_BYTES {
        return NOT_A_SESSION;
    }
    refusal::number(change(session))
}
