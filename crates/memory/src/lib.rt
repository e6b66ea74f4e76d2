// What every call of the store reads: whether a state is sound, an entry's fields, a chain.
#![tactic(auto)]

pub mod chain;
pub mod entry;
pub mod state;
