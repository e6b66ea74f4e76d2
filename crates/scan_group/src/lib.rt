// The two readings of the chains of a walk call's group: one counts their entries and tests them, the other writes their
// pairs. And both of one chain, for a group of one bucket and for the iterators. They are public only for these calls, which
// write only what they have counted.
#![tactic(auto)]

pub mod count;
pub mod group;
pub mod hand_out;
pub mod lent;
pub mod orient;
pub mod sweep;
pub mod write;
