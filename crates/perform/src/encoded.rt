// A list of calls as bytes: the header of each (specs/Encoding).
ghost use Rattle.std.specs.Prelude.{◌≡◌, ◌≤◌, length};
ghost use Rattle.perform.specs.Encoding.{header_at, fits};

use buffer::byte_at;
use frames::{number2, number4};

#[derive(Clone, Copy)]
pub struct Header {
    pub kind: u8,
    pub small: u8,
    pub wide: u16,
    pub first: usize,
    pub second: usize,
    pub asked: usize,
    pub room: usize,
}

pub(crate) fn read_header(list: &[u8], at: usize) -> Header
    requires { at ≤ length list.now }
    ensures { result ≡ header_at list.now at }
{
    let kind = byte_at(list, at);
    let small = byte_at(list, at + 1);
    let wide = number2(list, at + 2);
    let first = number4(list, at + 4);
    let second = number4(list, at + 8);
    let asked = number4(list, at + 12);
    let room = number4(list, at + 16);
    Header {
        kind,
        small,
        wide,
        first,
        second,
        asked,
        room,
    }
}

// Whether the byte strings of a record at index at of size bytes, and its output behind the first used bytes of lent, are
// all there.
pub(crate) fn is_whole(h: Header, size: usize, lent: usize, at: usize, used: usize) -> bool
    requires { (at ≤ size) × (used ≤ lent) }
    ensures { result ≡ fits h size lent at used }
{
    let left = size - at;
    if left < 20 {
        return false;
    }
    if left - 20 < h.first {
        return false;
    }
    if left - 20 - h.first < h.second {
        return false;
    }
    if lent - used < h.room {
        return false;
    }
    true
}
