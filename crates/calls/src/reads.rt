// The calls that read the session: kinds 101 to 105.
use super::payload::Payload;
use super::reply::Reply;
use finished::binder::binder;
use finished::check::check;
use finished::finished::finished;
use outputs::export::export;
use outputs::keys::keys;
use session::Session;

// name 1, room 4
pub(crate) fn make_keys<'a>(s: Session, mut p: Payload, out: &'a mut [u8]) -> Option<Reply<'a>> {
    let name = p.byte()?;
    let lent = p.lend(out)?;
    let answer = keys(s, name, lent);
    Some(Reply::Lent(answer, lent))
}

// side 1, room 4
pub(crate) fn make_finished<'a>(
    s: Session,
    mut p: Payload,
    out: &'a mut [u8],
) -> Option<Reply<'a>> {
    let side = p.byte()?;
    let lent = p.lend(out)?;
    let answer = finished(s, side, lent);
    Some(Reply::Lent(answer, lent))
}

// side 1, received bytes
pub(crate) fn make_check<'a>(s: Session, mut p: Payload) -> Option<Reply<'a>> {
    let side = p.byte()?;
    Some(Reply::Judged(check(s, side, p.rest())))
}

// room 4, cut ClientHello
pub(crate) fn make_binder<'a>(s: Session, mut p: Payload, out: &'a mut [u8]) -> Option<Reply<'a>> {
    let lent = p.lend(out)?;
    let answer = binder(s, p.rest(), lent);
    Some(Reply::Lent(answer, lent))
}

// name 1, length 4, room 4, label size 4, label, context
pub(crate) fn make_export<'a>(s: Session, mut p: Payload, out: &'a mut [u8]) -> Option<Reply<'a>> {
    let name = p.byte()?;
    let asked = p.number4()?;
    let lent = p.lend(out)?;
    let label = p.field()?;
    let answer = export(s, name, label, p.rest(), asked, lent);
    Some(Reply::Lent(answer, lent))
}
