// One register in the place of another. changes: the labels that differ, counted and reported; copying: six tables over six others.
#![tactic(auto)]

pub mod changes;
pub mod copying;
