// The recipe planner (document 02, S-8): the first minute at which a change of recipe can go through, within weekly windows.
// numbers: volume, flow, minute of the week, minute of two weeks; answers: what is answered, and the refusals; planning: what outsiders
// call; lent: the same as C calls it, with an answer as one number; lines: the same from a line of a register's sheet.
// Not for outsiders, since they pass 34 and 35 by: windows: 35, and the windows of one week.
// It stands on no crate that touches a register: it knows one by its sheet's numbers alone.
#![tactic(auto)]

pub mod answers;
pub mod lent;
pub mod lines;
pub mod numbers;
pub mod planning;
mod windows;
