// What is printed of a list, as bytes in a lent slice.
#![tactic(auto)]

pub mod listing;
