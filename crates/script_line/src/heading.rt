// What a line says before its bytes are read.
ghost use Rattle.std.specs.Prelude.{◌≡◌, ◌≤◌};
ghost use Rattle.script_line.specs.Headings.{counted, begin_of, handshake_of, update_of, named_of, heading_of};

use super::fault::Fault;
use super::number::{hex_number, small_number};
use super::word::word;
use journal::record::Call;

#[derive(Clone, Copy)]
pub(crate) enum Heading {
    // Nothing, or a comment.
    Blank,
    // A call that has no bytes.
    Bare(Call),
    // A call, the word that has its bytes, and what is wrong where these are none.
    Carried(Call, usize, Fault),
}

// Whether a line has exactly k fields behind the call's name.
#[tactic(auto, unfolding(crate::specs::Headings::counted))]
fn counted(line: &[u8], k: usize) -> Result<(), Fault>
    requires { k ≤ 3 }
    ensures { result ≡ counted line.now k }
{
    if word(line, k).is_empty() {
        return Err(Fault::Missing);
    }
    if !word(line, k + 1).is_empty() {
        return Err(Fault::Extra);
    }
    Ok(())
}

// suite, PSK kind, PSK
#[tactic(auto, unfolding(crate::specs::Headings::begin_of))]
fn begin(line: &[u8]) -> Result<Heading, Fault>
    ensures { result ≡ begin_of line.now }
{
    let suite = hex_number(word(line, 1)).ok_or(Fault::Suite)?;
    let kind = small_number(word(line, 2)).ok_or(Fault::PskKind)?;
    Ok(Heading::Carried(Call::Begin(suite, kind), 3, Fault::Psk))
}

// group, shared secret
#[tactic(auto, unfolding(crate::specs::Headings::handshake_of))]
fn handshake(line: &[u8]) -> Result<Heading, Fault>
    ensures { result ≡ handshake_of line.now }
{
    let group = hex_number(word(line, 1)).ok_or(Fault::Group)?;
    Ok(Heading::Carried(Call::Handshake(group), 2, Fault::Secret))
}

// side
#[tactic(auto, unfolding(crate::specs::Headings::update_of))]
fn update(line: &[u8]) -> Result<Heading, Fault>
    ensures { result ≡ update_of line.now }
{
    let side = small_number(word(line, 1)).ok_or(Fault::Side)?;
    Ok(Heading::Bare(Call::Update(side)))
}

// The heading of a line whose first word is name.
#[tactic(auto, unfolding(crate::specs::Headings::named_of))]
fn named(name: &[u8], line: &[u8]) -> Result<Heading, Fault>
    ensures { result ≡ named_of name.now line.now }
{
    match name {
        b"begin" => counted(line, 3).and(begin(line)),
        b"feed" => counted(line, 1).and(Ok(Heading::Carried(Call::Feed, 1, Fault::Message))),
        b"early" => counted(line, 0).and(Ok(Heading::Bare(Call::Early))),
        b"handshake" => counted(line, 2).and(handshake(line)),
        b"application" => counted(line, 0).and(Ok(Heading::Bare(Call::Application))),
        b"complete" => counted(line, 0).and(Ok(Heading::Bare(Call::Complete))),
        b"update" => counted(line, 1).and(update(line)),
        b"close" => counted(line, 0).and(Ok(Heading::Bare(Call::Close))),
        _ => Err(Fault::Name),
    }
}

// The heading of a line.
#[tactic(auto, unfolding(crate::specs::Headings::heading_of))]
pub(crate) fn heading_of(line: &[u8]) -> Result<Heading, Fault>
    ensures { result ≡ heading_of line.now }
{
    let name = word(line, 0);
    match name {
        [] | [b'#', ..] => Ok(Heading::Blank),
        _ => named(name, line),
    }
}
