// The hash computation (FIPS 180-4, section 6), once for SHA-256 and SHA-384: the compression function on the words of a
// block, the hash value after whole blocks, and the digest.
#![tactic(auto)]

pub mod blocks;
mod functions;
pub mod rounds;
