// Eight houses on one licence (document 02, S-10). The tables of all houses are lent as one, each eight times as long; house h has the part
// from h times its own size on.
// heads: the head of each house; part: its part of the tables; reserves: the sum that the licence bounds; sizes: 25.
#![tactic(auto)]

pub mod heads;
pub mod part;
pub mod reserves;
pub mod sizes;
