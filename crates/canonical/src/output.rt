// The bytes that the program writes, built in a lent slice. A list that stops has no canonical list: one of the records before the stop
// would leave out, unseen, what stands behind it.
ghost use Rattle.std.specs.Prelude.{◌≡◌, ◌≤◌, length};
ghost use Rattle.io.specs.Counts.{IsPrefixLen as Counted};
ghost use Rattle.canonical.specs.Output.{canonical, as_output, room_bytes, size_of};

use counters::answers::Stop;
use counters::sizes::{EDGES, ENDS, SIDES, VERTICES};
use landing::records::grow_list;
use list::writing::put_list;
use streams::reading::MAX_LIST;
use text::lines::put_stopped;
use text::writing::put_text;

// Room for any list that is written.
pub const ROOM: usize = 65536;

// So many bytes of the slice: a list, for standard output, or a line, for standard error.
pub fn canonical_list(list: &[u8], out: &mut [u8]) -> Result<usize, usize>
    requires { room_bytes ≤ length out.old }
    ensures { Counted (size_of result) out.new × (as_output result out.new ≡ canonical list.now) }
{
    if MAX_LIST < list.len() {
        let long = put_text(out, 0, b"too long\n");
        return Err(long);
    }
    let mut degrees = [0u16; VERTICES];
    let mut sides = [0u16; SIDES];
    let mut ends = [0u16; ENDS];
    let mut lengths = [0u32; EDGES];
    let mut volumes = [0u32; EDGES];
    let mut labels = [0u32; VERTICES];
    let reading = grow_list(
        &mut degrees,
        &mut sides,
        &mut ends,
        &mut lengths,
        &mut volumes,
        &mut labels,
        list,
    );
    let stop = reading.stop;
    match stop {
        Stop::Whole => {
            let size = put_list(out, &ends, &lengths, &volumes, reading.counts);
            Ok(size)
        }
        Stop::Stopped(record, refusal) => {
            let number = refusal.number();
            let line = put_stopped(out, 0, record as u64, number as u64);
            Err(line)
        }
    }
}
