// The journal's calls: kinds 301 and 302.
use super::payload::Payload;
use super::reply::Reply;
use journal::read::read;
use writer::write;

// call kind 2, room 4, the journal's payload of that kind
pub(crate) fn make_write<'a>(mut p: Payload, out: &'a mut [u8]) -> Option<Reply<'a>> {
    let kind = p.number2()?;
    let lent = p.lend(out)?;
    let (call, body) = p.call(kind)?;
    let answer = write(call, body, lent);
    Some(Reply::Lent(answer, lent))
}

// place 8, journal
pub(crate) fn make_read<'a>(mut p: Payload) -> Option<Reply<'a>> {
    let place = p.number8()?;
    Some(Reply::Read(read(p.rest(), place)))
}
