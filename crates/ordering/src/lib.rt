// The lowest vertices of the chains with labels, by falling label: lowest: each, and the next of them; order: all, in a lent list.
// The list is a lent slice, sorted in place: a register has no memory of its own but what it is lent.
#![tactic(auto)]

pub mod lowest;
pub mod order;
