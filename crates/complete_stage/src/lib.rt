// The calls that lead to the point Complete and that are left there: Complete and Update.
#![tactic(auto)]

pub mod complete;
pub mod update;
