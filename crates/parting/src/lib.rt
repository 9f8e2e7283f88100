// A chain becomes two, or a ring a loop.
// Its functions take the tables that they read or write one by one, and no others: the type says what stays, and no loop reads a pointer again.
#![tactic(auto)]

pub mod splitting;
