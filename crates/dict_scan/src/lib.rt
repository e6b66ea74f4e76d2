// One walk call (SPECIFICATION, "The walk"; Redis: SCAN). It is lent the two bucket buffers and the entry buffer to read
// and a list to write, takes the state by value, and promises exactly its definition in model, for any numbers and any
// memory.
#![tactic(auto)]

pub mod scan;
