// What a call would find in the memory after a rehash step, told before it.
#![tactic(auto)]

pub mod course;
pub mod link;
pub mod presence;
