// One step of a rehash. The call is lent the two bucket buffers and the entry buffer, takes the state by value, and
// promises exactly its definition in model, for any numbers and any memory.
#![tactic(auto)]

pub mod rehash;
