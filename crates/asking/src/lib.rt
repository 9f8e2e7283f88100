// The questions on the tables of one house, over lent tables, counts and scratch (admission says which), one file each; `find` has two, by
// label and by vertex.
// None asks anything of its caller: what is lent is tested first. Each passes the gate, `questions` answers, and the register is left as it is.
#![tactic(auto)]

pub mod distance;
pub mod find;
pub mod quote;
pub mod sheet;
pub mod write;
