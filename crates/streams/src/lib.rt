// What the programs read, and write on standard output and standard error.
#![tactic(auto)]

pub mod reading;
pub mod writing;
