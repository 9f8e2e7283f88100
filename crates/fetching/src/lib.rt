// Document 02, S-6: the line that an opened sheet is at, over tables that are known to be a register's. The sheet is of the register that its
// counts name: so many of the first edges are landed again in scratch, as for refusal 21, and that is 33's third part. lines: the row at a
// place; named: 33, and the landing; cleared: both, and scratch all zero again.
#![tactic(auto)]

pub mod cleared;
pub mod lines;
pub mod named;
