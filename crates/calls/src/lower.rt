// The lower calls: kinds 201 to 206.
use super::payload::Payload;
use super::reply::Reply;
use extract::{extract, hmac};
use hkdf::expand::expand;
use hkdf::label::{derive_secret, expand_label};
use oneshot::hash;

// suite 2, room 4, input
pub(crate) fn make_hash<'a>(mut p: Payload, out: &'a mut [u8]) -> Option<Reply<'a>> {
    let suite = p.number2()?;
    let lent = p.lend(out)?;
    let answer = hash(suite, p.rest(), lent);
    Some(Reply::Lent(answer, lent))
}

// suite 2, room 4, key size 4, key, message
pub(crate) fn make_hmac<'a>(mut p: Payload, out: &'a mut [u8]) -> Option<Reply<'a>> {
    let suite = p.number2()?;
    let lent = p.lend(out)?;
    let key = p.field()?;
    let answer = hmac(suite, key, p.rest(), lent);
    Some(Reply::Lent(answer, lent))
}

// suite 2, room 4, salt size 4, salt, input
pub(crate) fn make_extract<'a>(mut p: Payload, out: &'a mut [u8]) -> Option<Reply<'a>> {
    let suite = p.number2()?;
    let lent = p.lend(out)?;
    let salt = p.field()?;
    let answer = extract(suite, salt, p.rest(), lent);
    Some(Reply::Lent(answer, lent))
}

// suite 2, length 4, room 4, secret size 4, secret, info
pub(crate) fn make_expand<'a>(mut p: Payload, out: &'a mut [u8]) -> Option<Reply<'a>> {
    let suite = p.number2()?;
    let asked = p.number4()?;
    let lent = p.lend(out)?;
    let secret = p.field()?;
    let answer = expand(suite, secret, p.rest(), asked, lent);
    Some(Reply::Lent(answer, lent))
}

// suite 2, length 4, room 4, secret size 4, secret, label size 4, label, context
pub(crate) fn make_expand_label<'a>(mut p: Payload, out: &'a mut [u8]) -> Option<Reply<'a>> {
    let suite = p.number2()?;
    let asked = p.number4()?;
    let lent = p.lend(out)?;
    let secret = p.field()?;
    let label = p.field()?;
    let answer = expand_label(suite, secret, label, p.rest(), asked, lent);
    Some(Reply::Lent(answer, lent))
}

// suite 2, room 4, secret size 4, secret, label size 4, label, messages
pub(crate) fn make_derive_secret<'a>(mut p: Payload, out: &'a mut [u8]) -> Option<Reply<'a>> {
    let suite = p.number2()?;
    let lent = p.lend(out)?;
    let secret = p.field()?;
    let label = p.field()?;
    let answer = derive_secret(suite, secret, label, p.rest(), lent);
    Some(Reply::Lent(answer, lent))
}
