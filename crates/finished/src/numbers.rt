// The decisions of Finished, Check and Binder: each reads as its definition does (book/specs/Refusals).
ghost use Rattle.std.specs.Prelude.{◌≡◌};
ghost use Rattle.refusal.specs.Refusal.{number};
ghost use Rattle.book.specs.Refusals.{known_side, finishing, finished_number, check_number, binder_number};

use book::messages::{CLIENT_HELLO, MAX_LENGTH};
use book::points::{AFTER_SERVER_FINISHED, AFTER_SERVER_HELLO, APPLICATION, EARLY, HANDSHAKE};
use buffer::byte_at;
use refusal::{Refusal, refuse_if};
use session::Session;
use suite::Suite;

fn is_side(side: u8) -> bool
    ensures { result ≡ known_side side }
{
    (side == 1) | (side == 2)
}

// Whether the Finished value of a side is made at a point and stage.
fn is_finishing(point: u16, stage: u16, side: u8) -> bool
    ensures { result ≡ finishing point stage side }
{
    ((side == 1) & ((point == APPLICATION) & (stage == AFTER_SERVER_FINISHED)))
        | ((side == 2) & ((point == HANDSHAKE) & (stage == AFTER_SERVER_HELLO)))
}

#[inline(always)]
#[tactic(auto, unfolding(book::specs::Refusals::finished_number))]
pub(crate) fn judge_finished(s: &Session, side: u8, room: usize) -> Result<(), Refusal>
    ensures { number result ≡ finished_number s.now.point s.now.stage s.now.suite side room }
{
    let known = is_side(side);
    let ready = is_finishing(s.point, s.stage, side);
    refuse_if(known & !ready, Refusal::NotAllowedHere)?;
    refuse_if(!known, Refusal::Unknown)?;
    refuse_if(room < Suite::hash_len(s.suite), Refusal::OutputTooShort)
}

#[inline(always)]
#[tactic(auto, unfolding(book::specs::Refusals::check_number))]
pub(crate) fn judge_check(s: &Session, side: u8) -> Result<(), Refusal>
    ensures { number result ≡ check_number s.now.point s.now.stage side }
{
    let known = is_side(side);
    let ready = is_finishing(s.point, s.stage, side);
    refuse_if(known & !ready, Refusal::NotAllowedHere)?;
    refuse_if(!known, Refusal::Unknown)
}

#[inline(always)]
#[tactic(auto, unfolding(book::specs::Refusals::binder_number))]
pub(crate) fn judge_binder(s: &Session, hello: &[u8], room: usize) -> Result<(), Refusal>
    ensures { number result ≡ binder_number s.now.point s.now.suite s.now.kind hello.now room }
{
    let n = hello.len();
    refuse_if(s.point != EARLY, Refusal::NotAllowedHere)?;
    refuse_if(s.kind == 0, Refusal::NotHeld)?;
    refuse_if(!((4 <= n) & (n <= MAX_LENGTH)), Refusal::MessageLength)?;
    refuse_if(byte_at(hello, 0) != CLIENT_HELLO, Refusal::MessageType)?;
    refuse_if(room < Suite::hash_len(s.suite), Refusal::OutputTooShort)
}
