// The shares of eight houses (document 02, S-10).
// eight: what is read of eight numbers; shares: the call.
#![tactic(auto)]

pub mod eight;
pub mod shares;
