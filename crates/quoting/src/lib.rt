// Document 02's quote of an edge: edges; plans: how many vertices a plan relabels.
// Its functions take the tables that they read or write one by one, and no others: the type says what stays, and no loop reads a pointer again.
#![tactic(auto)]

pub mod edges;
pub mod plans;
