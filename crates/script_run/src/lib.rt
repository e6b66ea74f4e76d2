// One line of a script, run against the store (SPECIFICATION, "The program"): its call is made, and then what that answers is
// written as a line.
#![tactic(auto)]

// The largest capacity and the largest table size that the program takes. Its buffers have room for just these.
pub const PROGRAM_LIMIT: usize = 4096;

pub mod answer;
pub mod line;
