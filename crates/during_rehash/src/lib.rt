// What add and delete do during a rehash, with the step that comes first, and what any add does in the end: an entry pushed,
// and counted.
#![tactic(auto)]

pub mod during;
pub mod entry;
mod foresee;
pub mod moving;
