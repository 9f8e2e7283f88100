// The calls that land, as outsiders call them, over the lent tables of eight houses (document 02, S-10): 25; 21 of the other houses and of the
// sum; 37; then the call on the house's own part of the tables (parts). One file each.
// None asks anything of its caller: what is lent is tested first.
// `grow`, `land` and `commit` are thin: they copy the heads out and in, and `grow_with`, `land_with` and `commit_with` do the work.
#![tactic(auto)]

pub mod commit;
pub mod grow;
pub mod land;
