// The operations, and their names.
use super::calling::Change;
use super::keying::Keying;
use super::reading::Reading;

#[derive(Clone, Copy)]
pub(crate) enum Operation {
    Hash,
    Keying(Keying),
    Change(Change),
    Reading(Reading),
}

impl Operation {
    pub(crate) fn named(name: &[u8]) -> Option<Self> {
        Some(match name {
            b"hash" => Operation::Hash,
            b"hmac" => Operation::Keying(Keying::Hmac),
            b"extract" => Operation::Keying(Keying::Extract),
            b"expand" => Operation::Keying(Keying::Expand),
            b"fresh" => Operation::Change(Change::Fresh),
            b"begin" => Operation::Change(Change::Begin),
            b"feed" => Operation::Change(Change::Feed),
            b"early" => Operation::Change(Change::Early),
            b"handshake" => Operation::Change(Change::Handshake),
            b"application" => Operation::Change(Change::Application),
            b"complete" => Operation::Change(Change::Complete),
            b"update" => Operation::Change(Change::Update),
            b"close" => Operation::Change(Change::Close),
            b"place" => Operation::Reading(Reading::Place),
            b"keys" => Operation::Reading(Reading::Keys),
            b"finished" => Operation::Reading(Reading::Finished),
            b"check" => Operation::Reading(Reading::Check),
            b"binder" => Operation::Reading(Reading::Binder),
            b"export" => Operation::Reading(Reading::Export),
            b"draft-export" => Operation::Reading(Reading::DraftExport),
            b"draft-handshake" => Operation::Reading(Reading::DraftHandshake),
            b"draft-master" => Operation::Reading(Reading::DraftMaster),
            _ => return None,
        })
    }
}
