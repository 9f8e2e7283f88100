// A list landed without labels (document 01: tags), for answers that need none: the sheet and a distance from C. Every record is tested as
// where labels are hung, by the same functions, since no refusal looks at a table.
// The tables come one by one: there are no labels, so a struct of six would have one that is not there.
#![tactic(auto)]

pub mod lists;
pub mod unlabelled;
