// The calls from C that need no tags: the sheet and the distance. The list is recorded in arrays of the call, and no label is hung. They are
// compiled into an object of their own: within that of `pnl` what reads and tests a record would have two callers, and become part of neither.
#![tactic(auto)]

mod distances;
mod recorded;
mod sheet;

ghost use Rattle.std.specs.Prelude.{◌≡◌};
ghost use Rattle.model.specs.FromC.{c_sheet, c_distance};
ghost use Rattle.pnl.specs.FromC.{returned};

use crate::recorded::{Survey, answer_recorded};

// Sheet: the runs and rings by rising name, six numbers each.
#[unsafe(no_mangle)]
pub extern "C" fn pnl_sheet(list: &[u8], answer: &mut [u8]) -> i32
    ensures { returned answer.new result ≡ c_sheet list.now answer.old }
{
    answer_recorded(list, Survey::Sheet, answer)
}

// Distance: the least length of a way between two fittings, or NOT_JOINED.
#[unsafe(no_mangle)]
pub extern "C" fn pnl_distance(list: &[u8], from: u32, to: u32, answer: &mut [u8]) -> i32
    ensures { returned answer.new result ≡ c_distance list.now from to answer.old }
{
    answer_recorded(list, Survey::Distance(from, to), answer)
}
