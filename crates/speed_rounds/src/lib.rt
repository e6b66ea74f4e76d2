// The work that the program speed does on a store, in rounds, to be timed against the same work in plain Rust (tests/speed).
#![tactic(auto)]

pub mod order;
mod plan;
pub mod rounds;
