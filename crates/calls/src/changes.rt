// The calls that may change the session: kinds 1 to 8, whose payloads are those of the journal.
use super::payload::Payload;
use super::reply::Reply;
use application_stage::application;
use complete_stage::complete::complete;
use complete_stage::update::update;
use early_stage::early;
use feeding::feed;
use handshake_stage::handshake;
use journal::record::Call;
use opening_stage::begin;
use session::Session;
use session::close::close;

// Makes the call of a kind; none where there is no such call. A refusal leaves the session as it is.
pub(crate) fn change<'a>(session: &mut Session, kind: u16, p: Payload) -> Option<Reply<'a>> {
    let (call, body) = p.call(kind)?;
    let s = *session;
    let next = match call {
        Call::Begin(suite, kind) => begin(s, suite, kind, body),
        Call::Feed => feed(s, body),
        Call::Early => early(s),
        Call::Handshake(group) => handshake(s, group, body),
        Call::Application => application(s),
        Call::Complete => complete(s),
        Call::Update(side) => update(s, side),
        Call::Close => Ok(close(s).0),
    };
    match next {
        Ok(after) => {
            *session = after;
            Some(Reply::Changed(Ok(())))
        }
        Err(why) => Some(Reply::Changed(Err(why))),
    }
}
