// A script's lines in, their answers out, over byte slices (SPECIFICATION, "The program").
#![tactic(auto)]

pub mod answer;
pub mod line;
pub mod number;
pub mod scan;
