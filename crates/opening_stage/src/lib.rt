// Begin: suite, PSK kind and PSK.
#![tactic(auto)]

ghost use Rattle.std.specs.Prelude.{◌≡◌, not, [], eqb, take};
ghost use Rattle.suite.specs.Suite.{hash_length};
ghost use Rattle.refusal.specs.Refusal.{number};
ghost use Rattle.hkdf.specs.Rfc8446.{derive_secret};
ghost use Rattle.schedule.specs.Labels.{label, binder_of};
ghost use Rattle.book.specs.Call.{Call};
ghost use Rattle.book.specs.Refusals.{begin_number, psk_size};
ghost use Rattle.session.specs.Session.{place};
ghost use Rattle.session.specs.Promise.{Done, after, plain};

use book::points::{EARLY, FRESH};
use chain_secrets::early_secret;
use derived_secrets::binder_key;
use refusal::{Refusal, refuse_if};
use session::{Session, fresh};
use suite::Suite;
use suite_hash::running::Running;

const MAX_PSK: usize = 128;

fn is_psk_size(suite: u16, kind: u8, n: usize) -> bool
    ensures { result ≡ psk_size suite kind n }
{
    match kind {
        0 => n == 0,
        1 => (1 <= n) & (n <= MAX_PSK),
        2 => n == Suite::hash_len(suite),
        _ => false,
    }
}

// Whether Begin is refused, test by test as its definition reads (book/specs/Refusals).
#[tactic(auto, unfolding(book::specs::Refusals::begin_number))]
fn judge(point: u16, suite: u16, kind: u8, psk: usize) -> Result<(), Refusal>
    ensures { number result ≡ begin_number point suite kind psk }
{
    let known = Suite::is_known(suite);
    let sized = is_psk_size(suite, kind, psk);
    refuse_if(!(point == FRESH), Refusal::NotAllowedHere)?;
    refuse_if(!known | !(kind <= 2), Refusal::Unknown)?;
    refuse_if(!sized, Refusal::SecretSize)
}

// The binder key of a PSK kind; none without a PSK.
fn binder_place(suite: u16, kind: u8, early: [u8; 48]) -> [u8; 48]
    ensures { result ≡ place (not (eqb kind 0)) (derive_secret suite (take (hash_length suite) early) (label (binder_of kind)) []) }
{
    match kind {
        0 => buffer::zeros(),
        _ => binder_key(suite, kind, early),
    }
}

// At Fresh; goes to Early. Refusals 1, 2 and 4. Suite and kind are numbers, since C gives any and begin_number refuses an
// unknown one with 2.
pub fn begin(s: Session, suite: u16, kind: u8, psk: &[u8]) -> Result<Session, Refusal>
    ensures { Done s (Call.Begin suite kind psk.now) (after s result) (plain result) }
{
    judge(s.point, suite, kind, psk.len())?;
    let chain = early_secret(suite, psk);
    let binder = binder_place(suite, kind, chain);
    let transcript = Running::start(suite);
    let mut next = fresh();
    next.point = EARLY;
    next.kind = kind;
    next.suite = suite;
    next.transcript = transcript;
    next.chain = chain;
    next.binder_key = binder;
    Ok(next)
}
