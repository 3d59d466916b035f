// Text over bytes: decimal numbers, and the fields of a line.
#![tactic(auto)]

pub mod decimal;
pub mod field;
