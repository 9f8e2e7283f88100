// The least length of a way between two vertices, over tables of ends and lengths alone.
// A search in Dijkstra's order is a hint, and rounds over all edges confirm it. So the answer rests on nothing that the heap holds.
// Heap and lists of edges stand in lent slices: a register has no memory of its own but what it is lent.
#![tactic(auto)]

pub mod dijkstra;
mod following;
mod heap;
mod incidence;
mod sampling;
pub mod shortest;
