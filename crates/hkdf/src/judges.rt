// The refusals of the lower calls, by sizes alone.
ghost use Rattle.std.specs.Prelude.{◌≡◌};
ghost use Rattle.refusal.specs.Refusal.{number};
ghost use Rattle.hkdf.specs.Refusals.{expand_number, expand_label_number, derive_secret_number, askable, labelled};

use oneshot::MAX_INPUT;
use refusal::{Refusal, refuse_if};
use suite::{MAX_LABEL, Suite};

// The longest info of Expand, and context of Expand-Label.
const MAX_INFO: usize = 1024;

const MAX_CONTEXT: usize = 255;

// Whether a length is 1 to 255 blocks.
fn can_ask(suite: u16, asked: usize) -> bool
    ensures { result ≡ askable suite asked }
{
    (1..=255 * Suite::hash_len(suite)).contains(&asked)
}

fn can_label(label: usize) -> bool
    ensures { result ≡ labelled label }
{
    (1..=MAX_LABEL).contains(&label)
}

#[tactic(auto, unfolding(crate::specs::Refusals::expand_number))]
pub(crate) fn expand(
    suite: u16,
    secret: usize,
    info: usize,
    asked: usize,
    room: usize,
) -> Result<(), Refusal>
    ensures { number result ≡ expand_number suite secret info asked room }
{
    let sizes = Suite::hash_len(suite)..=Suite::block_len(suite);
    refuse_if(!Suite::is_known(suite), Refusal::Unknown)?;
    refuse_if(!sizes.contains(&secret), Refusal::SecretSize)?;
    let outside = (MAX_INFO < info) | !can_ask(suite, asked);
    refuse_if(outside, Refusal::OutOfRange)?;
    refuse_if(room < asked, Refusal::OutputTooShort)
}

#[tactic(auto, unfolding(crate::specs::Refusals::expand_label_number))]
pub(crate) fn expand_label(
    suite: u16,
    secret: usize,
    label: usize,
    context: usize,
    asked: usize,
    room: usize,
) -> Result<(), Refusal>
    ensures { number result ≡ expand_label_number suite secret label context asked room }
{
    refuse_if(!Suite::is_known(suite), Refusal::Unknown)?;
    refuse_if(secret != Suite::hash_len(suite), Refusal::SecretSize)?;
    let outside = !can_label(label) | (MAX_CONTEXT < context) | !can_ask(suite, asked);
    refuse_if(outside, Refusal::OutOfRange)?;
    refuse_if(room < asked, Refusal::OutputTooShort)
}

#[tactic(auto, unfolding(crate::specs::Refusals::derive_secret_number))]
pub(crate) fn derive_secret(
    suite: u16,
    secret: usize,
    label: usize,
    messages: usize,
    room: usize,
) -> Result<(), Refusal>
    ensures { number result ≡ derive_secret_number suite secret label messages room }
{
    refuse_if(!Suite::is_known(suite), Refusal::Unknown)?;
    refuse_if(secret != Suite::hash_len(suite), Refusal::SecretSize)?;
    refuse_if(MAX_INPUT < messages, Refusal::InputTooLong)?;
    refuse_if(!can_label(label), Refusal::OutOfRange)?;
    refuse_if(room < Suite::hash_len(suite), Refusal::OutputTooShort)
}
