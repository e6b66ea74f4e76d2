// The calls that change no chain: find and update. Each is lent the two bucket buffers and the entry buffer,
// takes the state by value, and promises exactly its definition in model, for any numbers and any memory.
#![tactic(auto)]

pub mod find;
pub mod update;
