// What the calls share: a value worked out, and written.
ghost use Rattle.std.specs.Prelude.{◌≡◌, take};
ghost use Rattle.buffer.specs.Buffer.{placed, after, behind};
ghost use Rattle.suite.specs.Suite.{hash_length};
ghost use Rattle.outputs.specs.Places.{base_place, finished_from};

use session::Session;
use suite::Suite;
use traffic::verify_data;

// The base secret of a side.
#[inline(always)]
fn base_place(s: &Session, side: u8) -> [u8; 48]
    ensures { result ≡ base_place s.now side }
{
    match side {
        1 => s.client_handshake,
        _ => s.server_handshake,
    }
}

// The Finished value of a side. Inlined, so that no session lies on the stack for it.
#[inline(always)]
#[tactic(auto, unfolding(outputs::specs::Places::finished_from))]
pub(crate) fn finished_value(s: &Session, side: u8) -> [u8; 48]
    ensures { result ≡ placed (finished_from s.now side) }
{
    let base = base_place(s, side);
    let hash = s.transcript.digest(s.suite);
    verify_data(s.suite, base, hash)
}

// Writes the H bytes of a value to the front of out, and answers the index behind them.
pub(crate) fn write_value(suite: u16, value: [u8; 48], out: &mut [u8]) -> usize
    ensures { (result ≡ behind 0 (take (hash_length suite) value) out.old) × (out.new ≡ after 0 (take (hash_length suite) value) out.old) }
{
    let h = Suite::hash_len(suite);
    buffer::put(out, 0, &value[..h])
}
