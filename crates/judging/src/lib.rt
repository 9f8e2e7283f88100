// The verdict on a contractor's sheet (document 02, S-9).
#![tactic(auto)]

pub mod right;
pub mod verdict;
