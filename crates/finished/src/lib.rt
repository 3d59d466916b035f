// Finished, Check and Binder: the calls of document 01 that work out a Finished value or a binder.
#![tactic(auto)]

pub mod binder;
pub mod check;
pub mod finished;
mod numbers;
mod values;
