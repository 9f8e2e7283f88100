// The sheet as a call's answer: six numbers a chain, by rising name.
ghost use Rattle.std.specs.Prelude.{◌≡◌, length, replicate};
ghost use Rattle.model.specs.Basics.{max_edges};
ghost use Rattle.model.specs.FromC.{bytes_of, returns_numbers};
ghost use Rattle.model.specs.Queries.{concat};
ghost use Rattle.chains.specs.Answers.{row_of};
ghost use Rattle.chains.specs.Chains.{names_in, sheet_in};
ghost use Rattle.text.specs.Pages.{page, write};
ghost use Rattle.pnl.specs.FromC.{returned};

use chains::names::has_room;
use chains::rows::{ROW, Row, take_row};
use counters::numbers::Edge;
use counters::refusals::Refusal;
use counters::sizes::EDGES;
use pnl::answers::{byte_count, put_words, refused};
use tables::access::of;

// Four bytes a number.
const ROW_BYTES: usize = 4 * ROW;

fn put_row_bytes(out: &mut [u8], at: usize, row: Row) -> usize
    ensures { page out.new result ≡ write (bytes_of (row_of row)) (page out.old at) }
{
    let name = u32::from(row.name.0);
    let lower = u32::from(row.lower.0);
    let other = u32::from(row.other.0);
    let numbers = [name, lower, other, row.inner, row.length.0, row.volume.0];
    put_words(out, at, &numbers)
}

// The rows of all chains; the answer is how many there are.
fn put_sheet_bytes(
    out: &mut [u8],
    degrees: &[u16],
    sides: &[u16],
    ends: &[u16],
    lengths: &[u32],
    volumes: &[u32],
    marks: &mut [u16],
    edges: u16,
) -> u16
    ensures { (result ≡ length (names_in degrees.now sides.now ends.now edges marks.old))
        × (out.new
        ≡ (write (bytes_of (concat (sheet_in degrees.now sides.now ends.now lengths.now volumes.now edges marks.old)))
        (page out.old 0)).slice) }
{
    let mut next: usize = 0;
    let mut count: u16 = 0;
    for edge in 0..edges {
        if of(marks, edge) != 0 {
            continue;
        }
        let row = take_row(
            degrees,
            sides,
            ends,
            lengths,
            volumes,
            marks,
            Edge(edge),
            edges,
        );
        next = put_row_bytes(out, next, row);
        count += 1;
    }
    count
}

// A slice that is too short stays as it is: where it may be, the chains are counted first, over marks of their own.
pub fn answer_sheet(
    answer: &mut [u8],
    degrees: &[u16],
    sides: &[u16],
    ends: &[u16],
    lengths: &[u32],
    volumes: &[u32],
    edges: u16,
) -> i32
    ensures { returned answer.new result
        ≡ returns_numbers answer.old
        (concat (sheet_in degrees.now sides.now ends.now lengths.now volumes.now edges (replicate max_edges 0))) }
{
    let mut counting = [0u16; EDGES];
    let mut marks = [0u16; EDGES];
    let rows = answer.len() / ROW_BYTES;
    if !has_room(degrees, sides, ends, &mut counting, edges, rows) {
        return refused(Refusal::ShortSlice);
    }
    let count = put_sheet_bytes(
        answer, degrees, sides, ends, lengths, volumes, &mut marks, edges,
    );
    byte_count(ROW_BYTES * (count as usize))
}
