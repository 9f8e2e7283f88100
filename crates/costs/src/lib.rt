// A quote from C (document 02, S-5). It is compiled into an object of its own: within that of `pnl` a second caller would keep what lands a
// pipe from becoming part of the growing, and growing took up to twice as long.
#![tactic(auto)]

mod terms;

ghost use Rattle.std.specs.Prelude.{◌≡◌};
ghost use Rattle.model.specs.FromC.{c_quote};
ghost use Rattle.pnl.specs.FromC.{returned};

use crate::terms::{answer_terms, terms_checked};
use counters::answers::Stop;
use counters::sizes::{EDGES, ENDS, SIDES, VERTICES};
use landing::records::grow_list;
use pnl::answers::refused;

// The case of a pipe, 1 to 6 or 7 for a ring, and how many tags it would re-hang; or the refusal that it would meet. The tables are its own, all
// zero at the start.
#[unsafe(no_mangle)]
pub extern "C" fn pnl_quote(
    list: &[u8],
    first: u32,
    second: u32,
    length: u32,
    volume: u32,
    answer: &mut [u8],
) -> i32
    ensures { returned answer.new result
        ≡ c_quote list.now (record { first = first; second = second; len = length; volume = volume }) answer.old }
{
    let mut degrees = [0u16; VERTICES];
    let mut sides = [0u16; SIDES];
    let mut ends = [0u16; ENDS];
    let mut lengths = [0u32; EDGES];
    let mut volumes = [0u32; EDGES];
    let mut labels = [0u32; VERTICES];
    let reading = grow_list(
        &mut degrees,
        &mut sides,
        &mut ends,
        &mut lengths,
        &mut volumes,
        &mut labels,
        list,
    );
    let counts = reading.counts;
    let stop = reading.stop;
    match stop {
        Stop::Whole => {
            let terms = terms_checked(
                &degrees, &sides, &ends, &labels, counts, first, second, length, volume,
            );
            answer_terms(answer, terms)
        }
        Stop::Stopped(record, refusal) => refused(refusal),
    }
}
