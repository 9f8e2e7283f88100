// The calls that land, on the tables of one house (admission says which): 25 and 21 of that house, then the effect. One file each. What stands
// before them, of the other houses and of the licence, is in `licence`; those that only ask stand in `asking`.
// The register comes as slices, scratch in a struct: of parts of longer slices that stand in a struct it is not known what a call leaves there.
// None asks anything of its caller: what is lent is tested first.
#![tactic(auto)]

pub mod commit;
pub mod grow;
pub mod land;
