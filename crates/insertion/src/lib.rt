// One record of a list into the six lent tables.
// vertices: a vertex, which changes the counts alone; edges: an edge, placed as planned, and what is written down.
// Its functions take the tables that they read or write one by one, and no others: the type says what stays, and no loop reads a pointer again.
#![tactic(auto)]

pub mod edges;
pub mod vertices;
