// One line of a list of calls as plain text, and the call that it says.
#![tactic(auto)]

pub mod fault;
mod heading;
pub mod line;
mod number;
mod word;
