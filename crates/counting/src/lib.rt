// How many vertices an edge would relabel, read before anything is written: document 02's quote.
// Its functions take the tables that they read or write one by one, and no others: the type says what stays, and no loop reads a pointer again.
#![tactic(auto)]

pub mod counts;
