// Why a line cannot be written to a journal.
use std::fmt;

#[derive(Clone, Copy, Debug, PartialEq, Eq)]
pub enum Fault {
    // The first word names no call.
    Name,
    // A field is missing, or there is one more than the call has.
    Missing,
    Extra,
    // A field is not of its form.
    Suite,
    PskKind,
    Psk,
    Message,
    Group,
    Secret,
    Side,
    // The payload is over 65,535 bytes, or the journal is longer than the output.
    Payload,
    Journal,
}

impl fmt::Display for Fault {
    fn fmt<W: fmt::Write>(&self, f: &mut fmt::Formatter<W>) -> fmt::Result {
        f.write_str(match self {
            Fault::Name => {
                "the call is none of begin, feed, early, handshake, application, complete, update, close"
            }
            Fault::Missing => "a field is missing (- stands for no bytes)",
            Fault::Extra => "there is more than the call takes",
            Fault::Suite => "the suite is not a number of 1 to 4 hex digits",
            Fault::PskKind => "the PSK kind is not a decimal number of 0 to 255",
            Fault::Psk => "the PSK is neither pairs of hex digits nor -",
            Fault::Message => "the message is neither pairs of hex digits nor -",
            Fault::Group => "the group is not a number of 1 to 4 hex digits",
            Fault::Secret => "the shared secret is neither pairs of hex digits nor -",
            Fault::Side => "the side is not a decimal number of 0 to 255",
            Fault::Payload => "the payload is over 65,535 bytes",
            Fault::Journal => "the journal is over 65,536 bytes",
        })
    }
}
