// SHA-256 and SHA-384 (FIPS 180-4), by the number of a suite.
#![tactic(auto)]

pub mod blocks;
mod padding;
pub mod running;
