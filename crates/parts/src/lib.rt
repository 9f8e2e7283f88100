// The calls that land, on one of eight houses: its head and its part of the tables are taken out, the call on the tables of one house is made
// (calls), and head and part are put back. One file each.
#![tactic(auto)]

pub mod commit;
pub mod grow;
pub mod land;
