// Remove on the tables of one house (document 02, S-11): 25, 21, 38, then the rest landed anew in scratch and settled.
#![tactic(auto)]

pub mod own;
