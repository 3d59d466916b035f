// The secrets that lead from one stage to the next (RFC 8446, section 7.1): Early, Handshake and Master Secret.
#![tactic(auto)]

ghost use Rattle.std.specs.Prelude.{◌≡◌, take};
ghost use Rattle.buffer.specs.Buffer.{placed};
ghost use Rattle.suite.specs.Suite.{hash_length};
ghost use Rattle.hkdf.specs.Refusals.{max_message};
ghost use Rattle.hkdf.specs.Rfc5869.{extract};
ghost use Rattle.schedule.specs.Schedule.{within, or_zeros, early_secret, next_secret, handshake_secret, master_secret};

use keyed::extract_value;
use schedule::over_nothing;
use suite::Suite;

// HKDF-Extract. H zero bytes stand in for an input that is absent.
fn extract_or_zeros(suite: u16, salt: [u8; 48], input: &[u8]) -> [u8; 48]
    ensures { result ≡ placed (extract suite (take (hash_length suite) salt) (or_zeros suite (take max_message input.now))) }
{
    let h = Suite::hash_len(suite);
    if input.is_empty() {
        let zeros = buffer::zeros::<48>();
        return extract_value(suite, &salt[..h], &zeros[..h]);
    }
    extract_value(suite, &salt[..h], input)
}

// The Early Secret. Of a PSK over the limit of Extract, which no call takes, its bytes up to the limit are read.
pub fn early_secret(suite: u16, psk: &[u8]) -> [u8; 48]
    ensures { result ≡ placed (early_secret suite (within max_message psk.now)) }
{
    let salt = buffer::zeros();
    extract_or_zeros(suite, salt, psk)
}

// The secret below a secret, with an input from the left.
fn next_secret(suite: u16, secret: [u8; 48], input: &[u8]) -> [u8; 48]
    ensures { result ≡ placed (next_secret suite (take (hash_length suite) secret) (take max_message input.now)) }
{
    let salt = over_nothing(suite, secret, b"derived");
    extract_or_zeros(suite, salt, input)
}

// The Handshake Secret, of the Early Secret and the shared secret.
#[tactic(auto, unfolding(schedule::specs::Schedule::within, schedule::specs::Schedule::handshake_secret))]
pub fn handshake_secret(suite: u16, early: [u8; 48], shared: &[u8]) -> [u8; 48]
    ensures { result ≡ placed (handshake_secret suite (take (hash_length suite) early) (within max_message shared.now)) }
{
    next_secret(suite, early, shared)
}

// The Master Secret, of the Handshake Secret.
#[tactic(auto, unfolding(schedule::specs::Schedule::master_secret))]
pub fn master_secret(suite: u16, handshake: [u8; 48]) -> [u8; 48]
    ensures { result ≡ placed (master_secret suite (take (hash_length suite) handshake)) }
{
    next_secret(suite, handshake, b"")
}
