// The calls by which a store grows by itself: add, behind which a resize may begin, and the permission for it. Each is lent the
// two bucket buffers and the entry buffer, and promises exactly its definition in model, for any numbers and any memory.
#![tactic(auto)]

pub mod add;
pub mod allow;
