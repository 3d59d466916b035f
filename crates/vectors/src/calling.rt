// The operations that may change the session; they print done, or the refusal.
//   fresh; begin SUITE KIND PSK; feed 0000 0 MESSAGE; early; handshake GROUP 0 SECRET; application; complete; update
//   SIDE; close
use super::arguments::Arguments;
use refusal::Refusal;
use session::close::close;
use session::{Session, fresh};

#[derive(Clone, Copy)]
pub(crate) enum Change {
    Fresh,
    Begin,
    Feed,
    Early,
    Handshake,
    Application,
    Complete,
    Update,
    Close,
}

impl Change {
    // The session after the call.
    pub(crate) fn call(self, s: Session, given: Arguments) -> Result<Session, Refusal> {
        match self {
            Change::Fresh => Ok(fresh()),
            Change::Begin => {
                let kind = u8::try_from(given.length).unwrap_or(u8::MAX);
                opening_stage::begin(s, given.number, kind, given.x)
            }
            Change::Feed => feeding::feed(s, given.x),
            Change::Early => early_stage::early(s),
            Change::Handshake => handshake_stage::handshake(s, given.number, given.x),
            Change::Application => application_stage::application(s),
            Change::Complete => complete_stage::complete::complete(s),
            Change::Update => {
                let side = u8::try_from(given.number).unwrap_or(u8::MAX);
                complete_stage::update::update(s, side)
            }
            Change::Close => Ok(close(s).0),
        }
    }
}
