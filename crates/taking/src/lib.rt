// Remove, as outsiders call it (document 02, S-11): behind the gate of the other houses, the head of its house and
// its part of the tables taken out and put back, and the removal counted.
#![tactic(auto)]

pub mod house;
pub mod remove;
