// What a question is answered over tables that are known to be a register's: a gate or a growing has shown it. Each leaves the register
// as it is; scratch ends all zero.
// A contract says `(volumes : List ℕ) →` of a table that the function does not read: it holds whatever that table has in it.
#![tactic(auto)]

pub mod find;
pub mod measure;
pub mod sheet;
pub mod write;
