// What stands before the calls: refusal 25, then 21. A register is six tables and its counts; scratch is six tables more.
// sizes: 25; gate: both, and the clearing that grow does instead of 21.
#![tactic(auto)]

pub mod gate;
pub mod sizes;
