// What is known of an edge before it is placed: checks: its refusals; cases: which of document 01's cases it is.
#![tactic(auto)]

pub mod cases;
pub mod checks;
