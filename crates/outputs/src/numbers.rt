// The decisions of Keys and Export: each reads as its definition does (book/specs/Refusals).
ghost use Rattle.std.specs.Prelude.{◌≡◌};
ghost use Rattle.refusal.specs.Refusal.{number};
ghost use Rattle.book.specs.Held.{early_held, handshake_held, application_held};
ghost use Rattle.book.specs.Refusals.{keys_held, export_held, length_in_force, export_range, keys_number, export_number};

use book::points::{APPLICATION, CLOSED, COMPLETE, EARLY, FRESH, HANDSHAKE};
use refusal::{Refusal, refuse_if};
use session::Session;
use suite::{MAX_LABEL, Suite};

const MAX_CONTEXT: usize = 65535;

// Which secrets are held at a point.
fn is_early_held(point: u16, ran: u8) -> bool
    ensures { result ≡ early_held point ran }
{
    (ran == 1) & ((EARLY <= point) & (point <= APPLICATION))
}

fn is_handshake_held(point: u16) -> bool
    ensures { result ≡ handshake_held point }
{
    (point == HANDSHAKE) | (point == APPLICATION)
}

fn is_application_held(point: u16) -> bool
    ensures { result ≡ application_held point }
{
    (point == APPLICATION) | (point == COMPLETE)
}

// Whether the secret that Keys names is held.
fn is_held(point: u16, ran: u8, name: u8) -> bool
    ensures { result ≡ keys_held point ran name }
{
    let early = is_early_held(point, ran);
    let handshake = is_handshake_held(point);
    let application = is_application_held(point);
    ((name == 1) & early)
        | ((((name == 2) | (name == 3)) & handshake) | (((name == 4) | (name == 5)) & application))
}

#[inline(always)]
#[tactic(auto, unfolding(book::specs::Refusals::keys_number))]
pub(crate) fn judge_keys(s: &Session, name: u8, room: usize) -> Result<(), Refusal>
    ensures { number result ≡ keys_number s.now.point s.now.suite s.now.early name room }
{
    refuse_if(
        (s.point == FRESH) | (s.point == CLOSED),
        Refusal::NotAllowedHere,
    )?;
    refuse_if(!((1 <= name) & (name <= 5)), Refusal::Unknown)?;
    refuse_if(!is_held(s.point, s.early, name), Refusal::NotHeld)?;
    refuse_if(
        room < Suite::key_len(s.suite) + Suite::iv_len(s.suite),
        Refusal::OutputTooShort,
    )
}

// Length 0 asks for 32 bytes.
pub(crate) fn length_in_force(asked: usize) -> usize
    ensures { result ≡ length_in_force asked }
{
    if asked == 0 { 32 } else { asked }
}

fn is_exportable(suite: u16, label: usize, context: usize, asked: usize) -> bool
    ensures { result ≡ export_range suite label context asked }
{
    let most = 255 * Suite::hash_len(suite);
    let n = length_in_force(asked);
    ((1 <= label) & (label <= MAX_LABEL)) & ((context <= MAX_CONTEXT) & (n <= most))
}

// Whether the exporter secret of a name is held.
fn is_exporter_held(point: u16, ran: u8, name: u8) -> bool
    ensures { result ≡ export_held point ran name }
{
    let early = is_early_held(point, ran);
    let application = is_application_held(point);
    ((name == 1) & early) | ((name == 2) & application)
}

#[inline(always)]
#[tactic(auto, unfolding(book::specs::Refusals::export_number))]
pub(crate) fn judge_export(
    s: &Session,
    name: u8,
    label: usize,
    context: usize,
    asked: usize,
    room: usize,
) -> Result<(), Refusal>
    ensures { number result ≡ export_number s.now.point s.now.suite s.now.early name label context asked room }
{
    refuse_if(
        (s.point == FRESH) | (s.point == CLOSED),
        Refusal::NotAllowedHere,
    )?;
    refuse_if(!((name == 1) | (name == 2)), Refusal::Unknown)?;
    refuse_if(!is_exporter_held(s.point, s.early, name), Refusal::NotHeld)?;
    refuse_if(
        !is_exportable(s.suite, label, context, asked),
        Refusal::OutOfRange,
    )?;
    refuse_if(room < length_in_force(asked), Refusal::OutputTooShort)
}
