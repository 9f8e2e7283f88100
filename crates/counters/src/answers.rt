// What grow and land answer: `Result<Stop, Refusal>`, the list was read, and how far it was landed; or the call itself was refused.
// Definitions, `as_stop` and `list_reply`, give document 01's values of each case.
use crate::counts::Counts;
use crate::refusals::Refusal;

// How far a list was landed: whole, or up to a record (from 0) that was refused. Document 01 names the form: "an enum case holding the
// record index and an enum of refusals".
#[derive(Clone, Copy, PartialEq, Eq)]
pub enum Stop {
    Whole,
    Stopped(usize, Refusal),
}

// The counts as a call on one house leaves them, and what it answers.
#[derive(Clone, Copy)]
pub struct Answered<T> {
    pub counts: Counts,
    pub answer: Result<T, Refusal>,
}
