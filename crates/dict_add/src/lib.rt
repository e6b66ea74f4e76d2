// Add a key, with the step that comes first during a rehash that no safe iterator holds up; the growth behind it is
// `dict_grow`'s. It is lent the two bucket buffers and the entry buffer, takes the state by value, and promises exactly its
// definition in model, for any numbers and any memory.
#![tactic(auto)]

pub mod add;
