// A call over bytes, by its kind: the first check, the bytes as numbers, the plain call, the numbers as bytes. What each promises
// is in lent_bytes/specs/Exports.antt.
#![tactic(auto)]

pub mod read;
pub mod room;
pub mod write;
