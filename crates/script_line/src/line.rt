// One line: the call that it says, with its bytes.
ghost use Rattle.std.specs.Prelude.{◌≡◌, length};
ghost use Rattle.script_line.specs.Lines.{content, meaning, Read};

use super::fault::Fault;
use super::heading::{Heading, heading_of};
use super::number::get_body;
use super::word::word;
use journal::record::Call;

// A call, and how many bytes of the body it has.
#[derive(Clone, Copy)]
pub struct Item {
    pub call: Call,
    pub size: usize,
}

// A line without a carriage return at its end.
#[tactic(auto, unfolding(crate::specs::Lines::content_len))]
fn content(line: &[u8]) -> &[u8]
    ensures { result.now ≡ content line.now }
{
    match line {
        [content @ .., b'\r'] => content,
        _ => line,
    }
}

// Reads a line, without its line feed, and its call's bytes into the front of the lent body; None where it is blank or
// a comment.
pub fn read_line(line: &[u8], body: &mut [u8]) -> Result<Option<Item>, Fault>
    ensures { Read (meaning line.now (length body.old)) body.old result body.new }
{
    let content = content(line);
    match heading_of(content)? {
        Heading::Blank => Ok(None),
        Heading::Bare(call) => Ok(Some(Item { call, size: 0 })),
        Heading::Carried(call, k, fault) => match get_body(word(content, k), body) {
            Ok(size) => Ok(Some(Item { call, size })),
            Err(_) => Err(fault),
        },
    }
}
