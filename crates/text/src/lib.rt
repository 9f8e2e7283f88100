// Text, numbers, or the parts of a list, written into a lent slice from a position on. Each function answers the next position, and stops
// at the slice's end.
#![tactic(auto)]

pub mod bytes;
pub mod lines;
pub mod records;
pub mod writing;
