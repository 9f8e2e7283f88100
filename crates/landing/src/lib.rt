// Landing a list; records.rt has the functions.
#![tactic(auto)]

pub mod records;
