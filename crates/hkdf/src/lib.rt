// HKDF-Expand (RFC 5869), and HKDF-Expand-Label and Derive-Secret (RFC 8446, section 7.1).
#![tactic(auto)]

pub mod expand;
mod judges;
pub mod label;

// The longest message of HMAC and input of Extract.
pub const MAX_MESSAGE: usize = 1048576;
