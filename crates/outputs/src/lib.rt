// Keys and Export: the calls of document 01 that give out what is held.
#![tactic(auto)]

pub mod export;
pub mod keys;
mod numbers;
