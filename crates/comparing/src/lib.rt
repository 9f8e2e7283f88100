// A sheet compared with the right text, line by line, and the first wrong line shown.
#![tactic(auto)]

pub mod comparison;
