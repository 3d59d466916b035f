// A session as bytes that a caller keeps: the definition, and that encoding and decoding undo each other.
#![tactic(auto)]

// The bytes of a session.
pub const SESSION_BYTES: usize = 696;
