// The bytes that the printing program prints, built in a lent slice.
ghost use Rattle.std.specs.Prelude.{◌≡◌, ◌+◌, ◌*◌, ◌≤◌, length, replicate, take};
ghost use Rattle.model.specs.Basics.{max_edges};
ghost use Rattle.model.specs.Printing.{printed, row_line, row_lines, stop_line};
ghost use Rattle.counters.specs.Answers.{as_counts, as_stop};
ghost use Rattle.chains.specs.Answers.{row_of};
ghost use Rattle.chains.specs.Chains.{sheet_in};
ghost use Rattle.io.specs.Counts.{IsPrefixLen as Counted};
ghost use Rattle.text.specs.Pages.{page, write};
ghost use Rattle.listing.specs.Listing.{listing_in, head_bytes, row_bytes, stop_bytes, room_bytes};

use chains::names::count_chains;
use chains::rows::{Row, take_row};
use counters::answers::Stop;
use counters::counts::Counts;
use counters::numbers::Edge;
use counters::sizes::{EDGES, ENDS, SIDES, VERTICES};
use landing::records::grow_list;
use streams::reading::MAX_LIST;
use tables::access::of;
use text::lines::{put_line4, put_row_line, put_stopped};
use text::writing::put_text;

// Room for any listing.
pub const ROOM: usize = 294912;

// The line of a chain's row.
fn put_chain_line(out: &mut [u8], at: usize, row: Row) -> usize
    ensures { (page out.new result ≡ write (row_line (row_of row)) (page out.old at)) × (result ≤ at + row_bytes) }
{
    let name = row.name.0;
    let lower = row.lower.0;
    let other = row.other.0;
    let inner = row.inner;
    let length = row.length.0;
    let volume = row.volume.0;
    put_row_line(
        out,
        at,
        name as u64,
        lower as u64,
        other as u64,
        inner as u64,
        length as u64,
        volume as u64,
    )
}

// The sheet, one chain a line.
fn put_sheet_lines(
    out: &mut [u8],
    at: usize,
    degrees: &[u16],
    sides: &[u16],
    ends: &[u16],
    lengths: &[u32],
    volumes: &[u32],
    marks: &mut [u16],
    edges: u16,
) -> usize
    ensures { (page out.new result
        ≡ write (row_lines (sheet_in degrees.now sides.now ends.now lengths.now volumes.now edges marks.old))
        (page out.old at)) × (result ≤ at + row_bytes * edges) }
{
    let mut next = at;
    for edge in 0..edges {
        if of(marks, edge) != 0 {
            continue;
        }
        let row = take_row(
            degrees,
            sides,
            ends,
            lengths,
            volumes,
            marks,
            Edge(edge),
            edges,
        );
        next = put_chain_line(out, next, row);
    }
    next
}

// The line of a list that stopped.
fn put_stop(out: &mut [u8], at: usize, stop: Stop) -> usize
    ensures { (page out.new result ≡ write (stop_line (as_stop stop)) (page out.old at)) × (result ≤ at + stop_bytes) }
{
    match stop {
        Stop::Whole => at,
        Stop::Stopped(record, refusal) => {
            let number = refusal.number();
            put_stopped(out, at, record as u64, number as u64)
        }
    }
}

// The four numbers, the sheet, and the stop. The number of chains comes first, so they are counted, over marks of their own.
pub fn put_listing(
    out: &mut [u8],
    degrees: &[u16],
    sides: &[u16],
    ends: &[u16],
    lengths: &[u32],
    volumes: &[u32],
    counts: Counts,
    stop: Stop,
) -> usize
    ensures { (page out.new result
        ≡ write (listing_in (as_counts counts)
        (sheet_in degrees.now sides.now ends.now lengths.now volumes.now counts.edges (replicate max_edges 0))
        (as_stop stop)) (page out.old 0)) × (result ≤ head_bytes + row_bytes * counts.edges + stop_bytes) }
{
    let mut counting = [0u16; EDGES];
    let mut marks = [0u16; EDGES];
    let vertices = counts.vertices;
    let edges = counts.edges;
    let relabellings = counts.relabellings;
    let chains = count_chains(degrees, sides, ends, &mut counting, edges);
    let sheet = put_line4(
        out,
        0,
        vertices as u64,
        edges as u64,
        chains as u64,
        relabellings as u64,
    );
    let next = put_sheet_lines(
        out, sheet, degrees, sides, ends, lengths, volumes, &mut marks, edges,
    );
    put_stop(out, next, stop)
}

// What the program prints for the bytes that it read.
pub fn print_list(list: &[u8], out: &mut [u8]) -> usize
    requires { room_bytes ≤ length out.old }
    ensures { Counted result out.new × (take result out.new ≡ printed list.now) }
{
    if MAX_LIST < list.len() {
        return put_text(out, 0, b"too long\n");
    }
    let mut degrees = [0u16; VERTICES];
    let mut sides = [0u16; SIDES];
    let mut ends = [0u16; ENDS];
    let mut lengths = [0u32; EDGES];
    let mut volumes = [0u32; EDGES];
    let mut labels = [0u32; VERTICES];
    let reading = grow_list(
        &mut degrees,
        &mut sides,
        &mut ends,
        &mut lengths,
        &mut volumes,
        &mut labels,
        list,
    );
    let counts = reading.counts;
    let stop = reading.stop;
    put_listing(
        out, &degrees, &sides, &ends, &lengths, &volumes, counts, stop,
    )
}
