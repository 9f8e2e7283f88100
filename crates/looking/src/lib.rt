// A chain looked through for a label.
#![tactic(auto)]

pub mod through;
