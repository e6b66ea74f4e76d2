// The timed calls on a store, each for many keys or for the whole store at once, as the program speed makes them.
#![tactic(auto)]

pub mod changes;
pub mod keys;
pub mod padding;
pub mod reads;
pub mod whole;
