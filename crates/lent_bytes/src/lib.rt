// What is lent to an export, as bytes: the first check, the state and the answer. What an export
// promises is in specs/Exports.antt.
#![tactic(auto)]

pub mod answer;
pub mod check;
pub mod state;
