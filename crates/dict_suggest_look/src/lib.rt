// The calls that read the state and no chain: the suggested size, and a look at the live table. Each is lent the two
// bucket buffers and the entry buffer, and promises exactly its definition in model, for any numbers and any memory.
#![tactic(auto)]

pub mod current_table;
pub mod suggest;
