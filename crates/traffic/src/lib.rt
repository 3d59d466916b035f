// What is made of a traffic secret: the next one (RFC 8446, section 7.2), key and IV (7.3), verify_data (4.4.4).
#![tactic(auto)]

ghost use Rattle.std.specs.Prelude.{◌≡◌, take};
ghost use Rattle.buffer.specs.Buffer.{placed};
ghost use Rattle.suite.specs.Suite.{hash_length};
ghost use Rattle.suite_hash.specs.Hash.{hash, max_input};
ghost use Rattle.schedule.specs.Schedule.{within, next_traffic_secret, write_key, write_iv, verify_data};

use keyed::{label_block, ready};
use oneshot::digest;
use suite::Suite;

// write_key and write_iv, each with zeros behind it.
#[derive(Clone, Copy)]
pub struct TrafficKeys {
    pub key: [u8; 48],
    pub iv: [u8; 48],
}

pub fn traffic_keys(suite: u16, secret: [u8; 48]) -> TrafficKeys
    ensures { (result.key ≡ placed (write_key suite (take (hash_length suite) secret))) × (result.iv ≡ placed (write_iv suite (take (hash_length suite) secret))) }
{
    let k = ready(suite, secret);
    let key = label_block(suite, k, b"key", b"", Suite::key_len(suite));
    let iv = label_block(suite, k, b"iv", b"", Suite::iv_len(suite));
    TrafficKeys { key, iv }
}

// application_traffic_secret_N+1.
pub fn next_traffic_secret(suite: u16, secret: [u8; 48]) -> [u8; 48]
    ensures { result ≡ placed (next_traffic_secret suite (take (hash_length suite) secret)) }
{
    let h = Suite::hash_len(suite);
    let k = ready(suite, secret);
    label_block(suite, k, b"traffic upd", b"", h)
}

// verify_data under a base secret; a PSK binder, under the binder key.
pub fn verify_data(suite: u16, base: [u8; 48], transcript: [u8; 48]) -> [u8; 48]
    ensures { result ≡ placed (verify_data suite (take (hash_length suite) base) (take (hash_length suite) transcript)) }
{
    let h = Suite::hash_len(suite);
    let k = ready(suite, base);
    let finished_key = label_block(suite, k, b"finished", b"", h);
    let finished = ready(suite, finished_key);
    finished.mac(suite, &[&transcript[..h]])
}

// The hash of messages that lie in one slice.
#[tactic(auto, unfolding(schedule::specs::Schedule::within))]
pub fn messages_hash(suite: u16, messages: &[u8]) -> [u8; 48]
    ensures { result ≡ placed (hash suite (within max_input messages.now)) }
{
    digest(suite, messages)
}
