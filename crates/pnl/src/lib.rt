// Find from C, by tag and by fitting. The calls of this file grow the list in arrays of their own, ask the register, and answer in the lent slice,
// and nothing is kept between calls; `recipes` has the two on a valve's window, and `windows` the one that plans a change, which take no list.
// The sheet and the distance stand in `survey`, the quote in `costs`, each in an object of its own; `pnl_c` exports the calls of this crate.
// include/pnl.h says the same in C.
#![tactic(auto)]

pub mod answers;
pub mod asked;
mod finding;
pub mod grown;
pub mod recipes;
pub mod windows;

ghost use Rattle.std.specs.Prelude.{◌≡◌};
ghost use Rattle.model.specs.FromC.{c_find, c_find_at};
ghost use Rattle.pnl.specs.FromC.{returned};

use crate::asked::Question;
use crate::grown::answer_call;

// Find: the run or ring whose couplings include the tag, the coupling that wears it, and the lengths from there to the run's low and high
// end, in a ring 0 and its length: four numbers.
pub fn pnl_find(list: &[u8], tag: u32, answer: &mut [u8]) -> i32
    ensures { returned answer.new result ≡ c_find list.now tag answer.old }
{
    answer_call(list, Question::Find(tag), answer)
}

// The same by a coupling's number. Any number may be asked.
pub fn pnl_find_at(list: &[u8], fitting: u32, answer: &mut [u8]) -> i32
    ensures { returned answer.new result ≡ c_find_at list.now fitting answer.old }
{
    answer_call(list, Question::FindAt(fitting), answer)
}
