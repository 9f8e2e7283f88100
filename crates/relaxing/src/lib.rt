// Tentative distances to a vertex: edges that lower them, and rounds over all edges until none does. Then they are the least, in whatever order
// the edges were tried before.
#![tactic(auto)]

pub mod relax;
