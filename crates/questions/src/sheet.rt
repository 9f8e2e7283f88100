// Sheet: six numbers a chain (document 01: run) to the front of a lent slice, or 9.
ghost use Rattle.std.specs.Prelude.{◌≡◌, List, ℕ, length, replicate};
ghost use Rattle.model.specs.Queries.{concat};
ghost use Rattle.counters.specs.Answers.{as_counts};
ghost use Rattle.tables.specs.Meaning.{tables};
ghost use Rattle.text.specs.Pages.{page, write};
ghost use Rattle.chains.specs.Answers.{row_of};
ghost use Rattle.chains.specs.Chains.{names_in, sheet_in};
ghost use Rattle.questions.specs.Meaning.{listed_reply};
ghost use Rattle.questions.specs.Answering.{answered, sheeted_in};

use chains::names::has_room;
use chains::rows::{ROW, Row, take_row};
use counters::counts::Counts;
use counters::numbers::Edge;
use counters::refusals::Refusal;
use lent::slices::View;
use tables::access::of;
use text::writing::put_u32;

// The six numbers of a row, one after the other.
fn put_row(out: &mut [u32], at: usize, row: Row) -> usize
    ensures { page out.new result ≡ write (row_of row) (page out.old at) }
{
    let second = put_u32(out, at, u32::from(row.name.0));
    let third = put_u32(out, second, u32::from(row.lower.0));
    let fourth = put_u32(out, third, u32::from(row.other.0));
    let fifth = put_u32(out, fourth, row.inner);
    let sixth = put_u32(out, fifth, row.length.0);
    put_u32(out, sixth, row.volume.0)
}

// The rows of all chains by rising name, six numbers each, from the front of the slice on; the answer is how many there are.
fn put_rows(out: &mut [u32], register: &View, marks: &mut [u16], edges: u16) -> u16
    ensures { (result ≡ length (names_in register.now.degrees.now register.now.sides.now register.now.ends.now edges marks.old))
        × (out.new
        ≡ (write (concat (sheet_in register.now.degrees.now register.now.sides.now register.now.ends.now register.now.lengths.now register.now.volumes.now edges marks.old))
        (page out.old 0)).slice) }
{
    let mut next: usize = 0;
    let mut count: u16 = 0;
    for edge in 0..edges {
        if of(marks, edge) != 0 {
            continue;
        }
        let row = take_row(
            register.degrees,
            register.sides,
            register.ends,
            register.lengths,
            register.volumes,
            marks,
            Edge(edge),
            edges,
        );
        next = put_row(out, next, row);
        count += 1;
    }
    count
}

// Nothing is written to a slice that is too short: where it may be, the chains are counted first, over marks of their own.
fn sheet_in(
    register: &View,
    counts: Counts,
    counting: &mut [u16],
    marks: &mut [u16],
    out: &mut [u32],
) -> Result<u16, Refusal>
    ensures { (labels : List ℕ) → answered out.new (listed_reply result)
        ≡ sheeted_in (tables register.now.degrees.now register.now.sides.now register.now.ends.now register.now.lengths.now register.now.volumes.now labels)
        (as_counts counts) counting.old marks.old out.old }
{
    let edges = counts.edges;
    if !has_room(
        register.degrees,
        register.sides,
        register.ends,
        counting,
        edges,
        out.len() / ROW,
    ) {
        return Err(Refusal::ShortSlice);
    }
    Ok(put_rows(out, register, marks, edges))
}

// The same; both tables of marks end all zero.
pub fn sheet_cleared(
    register: &View,
    counts: Counts,
    counting: &mut [u16],
    marks: &mut [u16],
    out: &mut [u32],
) -> Result<u16, Refusal>
    ensures sheeted { (labels : List ℕ) → answered out.new (listed_reply result)
        ≡ sheeted_in (tables register.now.degrees.now register.now.sides.now register.now.ends.now register.now.lengths.now register.now.volumes.now labels)
        (as_counts counts) counting.old marks.old out.old }
    ensures cleared { (counting.new ≡ replicate (length counting.old) 0) × (marks.new ≡ replicate (length marks.old) 0) }
{
    let listed = sheet_in(register, counts, counting, marks, out);
    counting.fill(0);
    marks.fill(0);
    listed
}
