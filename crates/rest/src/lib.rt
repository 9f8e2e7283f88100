// What is left of a house without a pipe (document 02, S-11): the other pipes landed anew, in scratch.
#![tactic(auto)]

pub mod rest;
