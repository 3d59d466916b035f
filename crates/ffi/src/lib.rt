// The calls for programs in C and Rust: numbers and byte slices only, a slice as a pointer and a length. The session lies in
// bytes that the caller lends. include/bindcricket.h declares the functions.
#![tactic(auto)]

pub mod changing;
pub mod lower;
pub mod reading;
mod report;
