// Two chains become one, or one a ring.
// Its functions take the tables that they read or write one by one, and no others: the type says what stays, and no loop reads a pointer again.
#![tactic(auto)]

pub mod merging;
