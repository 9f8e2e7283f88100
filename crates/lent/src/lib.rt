// The six lent tables together, as they are passed on: to read, and to write.
#![tactic(auto)]

pub mod slices;
