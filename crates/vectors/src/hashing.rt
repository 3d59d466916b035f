// The operation hash: SUITE TIMES HEX, the digest of the bytes HEX that many times.
ghost use Rattle.std.specs.Prelude.{◌≡◌, length};

use super::fields::{bytes, cut, decimal, four_digits};
use super::output::{Fault, Outcome, Value, Word};
use refusal::{Refusal, refuse_if};
use suite::Suite;
use suite_hash::running::Running;

// The most repetitions.
const MOST: usize = 1000000;

// A message: a unit, repeated.
#[derive(Clone, Copy)]
struct Message<'a> {
    suite: u16,
    unit: &'a [u8],
    len: usize,
}

impl<'a> Message<'a> {
    fn read(fields: &[u8], room: &'a mut [u8; 4096]) -> Option<Self> {
        let (suite, fields) = cut(fields);
        let (times, unit) = cut(fields);
        let suite = four_digits(suite)?;
        let times = decimal(times)?;
        let unit = bytes(unit, room)?;
        if MOST < times {
            return None;
        }
        Some(Self {
            suite,
            unit,
            len: unit.len() * times,
        })
    }

    // Fills out with what the message has from that index on.
    fn copy(&self, from: usize, out: &mut [u8])
        ensures { length out.new ≡ length out.old }
    {
        if self.unit.is_empty() {
            return;
        }
        let first = &self.unit[from % self.unit.len()..];
        let bytes = first.iter().chain(self.unit.iter().cycle());
        for (to, b) in out.iter_mut().zip(bytes) {
            *to = *b;
        }
    }

    // The digest by the running hash, of pieces of 1, 3, 5, .. 257, 1, 3, .. bytes.
    fn in_pieces(&self) -> [u8; 48] {
        let mut h = Running::start(self.suite);
        let mut piece = [0u8; 257];
        let mut size = 1;
        let mut done = 0;
        // No `for`: each turn goes on by a piece of another size.
        while done < self.len {
            let n = size.min(self.len - done);
            self.copy(done, &mut piece[..n]);
            h.absorb(self.suite, &piece[..n]);
            done += n;
            size = if size < 256 { size + 2 } else { 1 };
        }
        h.finish(self.suite)
    }

    // Whether the one-shot call gives that digest too. A message that is too long for one array is not asked for.
    fn has_digest(&self, digest: &[u8]) -> Result<bool, Refusal> {
        let mut message = [0u8; 4096];
        if message.len() < self.len {
            refuse_if(!Suite::is_known(self.suite), Refusal::Unknown)?;
            return Ok(true);
        }
        self.copy(0, &mut message);
        let mut out = [0u8; 48];
        oneshot::hash(self.suite, &message[..self.len], &mut out)?;
        let h = Suite::hash_len(self.suite);
        Ok(digest == &out[..h])
    }
}

pub(crate) fn hash<'a>(fields: &[u8], room: &'a mut [u8; 512]) -> Outcome<'a> {
    let mut unit = [0u8; 4096];
    let message = Message::read(fields, &mut unit).ok_or(Fault::BadLine)?;
    let digest = message.in_pieces();
    let h = Suite::hash_len(message.suite);
    let digest = &digest[..h];
    if message.has_digest(digest)? {
        buffer::put(room, 0, digest);
        Ok(Value::Bytes(&room[..h]))
    } else {
        Ok(Value::Word(Word::Differs))
    }
}
