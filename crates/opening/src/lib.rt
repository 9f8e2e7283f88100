// A sheet of one house that is printed while landing goes on: it is opened, then fetched line by line. Neither asks anything of its
// caller: what is lent is tested first, and any sheet may be fetched from.
#![tactic(auto)]

pub mod sheets;
