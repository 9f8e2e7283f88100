// A quote and its commit. edges: the landing of an edge by the pair; quotes: document 02's commit of any quote.
// Its functions take the tables that they read or write one by one, and no others: the type says what stays, and no loop reads a pointer again.
#![tactic(auto)]

pub mod edges;
pub mod quotes;
