// Update: a side's next application secret.
ghost use Rattle.std.specs.Prelude.{◌≡◌, cond, [], eqb, length};
ghost use Rattle.refusal.specs.Refusal.{number};
ghost use Rattle.book.specs.Call.{Call};
ghost use Rattle.book.specs.Refusals.{update_number};
ghost use Rattle.session.specs.Promise.{Done, after, plain};
ghost use Rattle.encoding.specs.Encoding.{session_bytes};
ghost use Rattle.lent.specs.Called.{Called, numbered};
ghost use Rattle.complete_stage.specs.Kept.{UpdateKept};

use book::points::COMPLETE;
use decoder::decode;
use encoder::encode;
use encoding::SESSION_BYTES;
use lent::NOT_A_SESSION;
use refusal::{Refusal, refuse_if};
use session::Session;
use traffic::next_traffic_secret;

const MAX_UPDATES: u32 = 65535;

// What belongs to a side, of what belongs to each. Each place is passed alone, so that the whole session is not copied.
fn of_side<T: Copy>(side: u8, client: T, server: T) -> T
    ensures { result ≡ cond (eqb side 1) client server }
{
    match side {
        1 => client,
        _ => server,
    }
}

// Whether Update is refused, test by test as its definition reads (book/specs/Refusals).
#[tactic(auto, unfolding(book::specs::Refusals::update_number))]
fn judge(point: u16, side: u8, client: u32, server: u32) -> Result<(), Refusal>
    ensures { number result ≡ update_number point side client server }
{
    let made = of_side(side, client, server);
    refuse_if(!(point == COMPLETE), Refusal::NotAllowedHere)?;
    refuse_if(!((side == 1) | (side == 2)), Refusal::Unknown)?;
    refuse_if(!(made < MAX_UPDATES), Refusal::TooManyUpdates)
}

// The session with the secret in its side's place, and the update counted.
fn update_kept(mut s: Session, side: u8, moved: [u8; 48]) -> Session
    requires { update_number s.point side s.client_updates s.server_updates ≡ 0 }
    ensures { UpdateKept s side moved result }
{
    if side == 1 {
        s.client_application = moved;
        s.client_updates = s.client_updates + 1;
    } else {
        s.server_application = moved;
        s.server_updates = s.server_updates + 1;
    }
    s
}

// At Complete: side 1 is the client, 2 the server. Refusals 1, 2 and 12. A side is a number, since C gives any and
// update_number refuses an unknown one with 2.
pub fn update(s: Session, side: u8) -> Result<Session, Refusal>
    ensures { Done s (Call.Update side) (after s result) (plain result) }
{
    judge(s.point, side, s.client_updates, s.server_updates)?;
    let suite = s.suite;
    let client = s.client_application;
    let server = s.server_application;
    let secret = of_side(side, client, server);
    let moved = next_traffic_secret(suite, secret);
    Ok(update_kept(s, side, moved))
}

// On the bytes of a session, which is decoded again when the secret is made: no session lies on the stack while it is.
fn change(session: &mut [u8], side: u8) -> Result<(), Refusal>
    requires { length session.old ≡ session_bytes }
    ensures { Called session.old (Call.Update side) [] session.new (numbered (number result)) }
{
    let before = decode(session);
    judge(
        before.point,
        side,
        before.client_updates,
        before.server_updates,
    )?;
    let suite = before.suite;
    let client = before.client_application;
    let server = before.server_application;
    let secret = of_side(side, client, server);
    let moved = next_traffic_secret(suite, secret);
    let after = update_kept(decode(session), side, moved);
    encode(after, session);
    Ok(())
}

// The same on the bytes of a session.
pub fn update_lent(session: &mut [u8], side: u8) -> u8
    ensures { Called session.old (Call.Update side) [] session.new (numbered result) }
{
    if session.len() != SESSION_BYTES {
        return NOT_A_SESSION;
    }
    refusal::number(change(session, side))
}
