// The chain that holds a label: the chains with labels, taken from the newest, each looked through in one walk.
#![tactic(auto)]

pub mod newest;
