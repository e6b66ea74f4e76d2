// The calls of the iterators (SPECIFICATION, "Passes"). Each is lent the two bucket buffers and the entry buffer to read, takes
// the state by value, and promises exactly its definition in model, for any numbers and any memory. One call hands out the
// next bucket, to an iterator of either kind; each kind begins and ends in its own way.
#![tactic(auto)]

pub mod iterate;
pub mod plain;
pub mod safe;
