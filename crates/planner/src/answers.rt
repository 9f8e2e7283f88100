// What the planner answers. Definitions, `number_of` and `planned_reply`, give document 02's number and values of each case.
use crate::numbers::Beginning;

#[derive(Clone, Copy)]
pub enum Refusal {
    OutOfBounds,
    Windows,
}

// At: the first minute from which the whole transit lies inside one window. Never: document 02's "none".
#[derive(Clone, Copy)]
pub enum Plan {
    At(Beginning),
    Never,
    Unknown,
}
