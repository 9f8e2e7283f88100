// Which recipe is at the valve (document 02, S-13): the mixer's last 1,440 records, a ring of slots in two lent tables, and a head.
// numbers: recipe, millilitres of a record, minute; answers: the head, and the refusals; calls: what outsiders call; lent: the same as C
// calls it, with the head lent and an answer as one number.
// Not for outsiders, since they pass 25, 21 and 40 by: slots: the neighbours of a slot in the ring; window: one record more, the walk
// back, and whether arrivals from empty leave a window.
#![tactic(auto)]

pub mod answers;
pub mod calls;
pub mod lent;
pub mod numbers;
mod slots;
mod window;
