// What stands before a call for one of eight houses (document 02, S-10).
// others: 21 of the other houses; gate: 25, 21 of them and of the sum, 37, and the limit of the house.
#![tactic(auto)]

pub mod gate;
pub mod others;
