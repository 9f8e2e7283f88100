// The text that a sheet has to be: the listing of a whole list, built in a lent slice. A list that stops has none.
ghost use Rattle.std.specs.Prelude.{◌≡◌, ◌≤◌, length};
ghost use Rattle.io.specs.Counts.{IsPrefixLen as Counted};
ghost use Rattle.model.specs.Format.{grow_list};
ghost use Rattle.listing.specs.Listing.{room_bytes};
ghost use Rattle.judging.specs.Right.{right_of, as_right, size_of};

use counters::answers::Stop;
use counters::refusals::Refusal;
use counters::sizes::{EDGES, ENDS, SIDES, VERTICES};
use landing::records::grow_list;
use listing::listing::put_listing;

// So many bytes of the slice; or the record and the refusal of a list that stops.
pub fn right_text(list: &[u8], out: &mut [u8]) -> Result<usize, (usize, Refusal)>
    requires { room_bytes ≤ length out.old }
    ensures { Counted (size_of result) out.new × (as_right result out.new ≡ right_of (grow_list list.now)) }
{
    let mut degrees = [0u16; VERTICES];
    let mut sides = [0u16; SIDES];
    let mut ends = [0u16; ENDS];
    let mut lengths = [0u32; EDGES];
    let mut volumes = [0u32; EDGES];
    let mut labels = [0u32; VERTICES];
    let reading = grow_list(
        &mut degrees,
        &mut sides,
        &mut ends,
        &mut lengths,
        &mut volumes,
        &mut labels,
        list,
    );
    let stop = reading.stop;
    match stop {
        Stop::Whole => {
            let size = put_listing(
                out,
                &degrees,
                &sides,
                &ends,
                &lengths,
                &volumes,
                reading.counts,
                Stop::Whole,
            );
            Ok(size)
        }
        Stop::Stopped(record, refusal) => Err((record, refusal)),
    }
}
