// What an edge does to the degrees, the sides and the labels.
// placing: case by case; planning: what is decided by reading, before it is done.
// Its functions take the tables that they read or write one by one, and no others: the type says what stays, and no loop reads a pointer again.
#![tactic(auto)]

pub mod placing;
pub mod planning;
