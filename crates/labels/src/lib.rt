// What becomes of the labels of a chain.
// labelling: one vertex, one more, all along a chain; changes: what an edge makes of the chains.
// Its functions take the tables that they read or write one by one, and no others: the type says what stays, and no loop reads a pointer again.
#![tactic(auto)]

pub mod changes;
pub mod labelling;
