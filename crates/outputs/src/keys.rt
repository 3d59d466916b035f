// Keys: the traffic key and IV of a secret that is held.
ghost use Rattle.std.specs.Prelude.{◌≡◌, ◌+◌, ◌≤◌, length, take};
ghost use Rattle.buffer.specs.Buffer.{fronted};
ghost use Rattle.suite.specs.Suite.{hash_length, key_length, iv_length};
ghost use Rattle.schedule.specs.Schedule.{traffic_keys};
ghost use Rattle.book.specs.Call.{Call};
ghost use Rattle.session.specs.Promise.{Done, wrote};
ghost use Rattle.outputs.specs.Places.{named_place};

use super::numbers::judge_keys;
use refusal::Answer;
use session::Session;
use suite::Suite;
use traffic::{TrafficKeys, traffic_keys};

// The traffic secret of a name.
#[inline(always)]
fn named_place(s: &Session, name: u8) -> [u8; 48]
    ensures { result ≡ named_place s.now name }
{
    match name {
        1 => s.client_early,
        2 => s.client_handshake,
        3 => s.server_handshake,
        4 => s.client_application,
        _ => s.server_application,
    }
}

// Writes the key to the front of out and the IV right behind it, and answers the index behind both.
fn write_keys(suite: u16, secret: [u8; 48], out: &mut [u8]) -> usize
    requires { key_length suite + iv_length suite ≤ length out.old }
    ensures { (result ≡ length (traffic_keys suite (take (hash_length suite) secret))) × (out.new ≡ fronted (traffic_keys suite (take (hash_length suite) secret)) out.old) }
{
    let TrafficKeys { key, iv } = traffic_keys(suite, secret);
    let k = Suite::key_len(suite);
    let n = Suite::iv_len(suite);
    let at = buffer::put(out, 0, &key[..k]);
    buffer::put(out, at, &iv[..n])
}

// Names: 1 client early, 2 client handshake, 3 server handshake, 4 client application, 5 server application. Refusals 1, 2,
// 3 and 11.
pub fn keys(s: Session, name: u8, out: &mut [u8]) -> Answer
    ensures { Done s (Call.Keys name out.old) s (wrote result out.new) }
{
    judge_keys(&s, name, out.len())?;
    let secret = named_place(&s, name);
    let count = write_keys(s.suite, secret, out);
    Ok(count)
}
