// Where a key is: its chains are read to their ends, and none of them is trusted.
#![tactic(auto)]

pub mod found;
pub mod lookup;
