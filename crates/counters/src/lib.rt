// The numbers of documents 01 and 02 as types of their own, its refusals, and the head and the sizes of a register.
// numbers: fitting, pipe, tag, length and volume; refusals: their names and numbers; answers: what a list is answered with; quotes: what a pipe would
// cost; counts: the head; sizes: of the lent tables.
#![tactic(auto)]

pub mod answers;
pub mod counts;
pub mod numbers;
pub mod quotes;
pub mod refusals;
pub mod sizes;
