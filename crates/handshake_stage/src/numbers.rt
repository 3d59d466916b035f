// The decision of Handshake, test by test as its definition reads (book/specs/Refusals).
ghost use Rattle.std.specs.Prelude.{◌≡◌};
ghost use Rattle.refusal.specs.Refusal.{number};
ghost use Rattle.book.specs.Refusals.{handshake_number};

use super::groups::{all_zero, group_bytes, is_known};
use book::points::{AFTER_SERVER_HELLO, EARLY};
use refusal::{Refusal, refuse_if};

#[tactic(auto, unfolding(book::specs::Refusals::handshake_number))]
pub(crate) fn judge(
    point: u16,
    stage: u16,
    kind: u8,
    group: u16,
    secret: &[u8],
) -> Result<(), Refusal>
    ensures { number result ≡ handshake_number point stage kind group secret.now }
{
    let ready = (point == EARLY) & (stage == AFTER_SERVER_HELLO);
    let checked = (group == 0x001d) | (group == 0x001e);
    let zero = all_zero(secret);
    refuse_if(!ready, Refusal::NotAllowedHere)?;
    refuse_if(!is_known(group), Refusal::Unknown)?;
    refuse_if(!(secret.len() == group_bytes(group)), Refusal::SecretSize)?;
    refuse_if(checked & zero, Refusal::ZeroSharedSecret)?;
    refuse_if((group == 0) & (kind == 0), Refusal::NoSecret)
}
