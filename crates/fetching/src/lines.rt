// The row at a place of a sheet.
ghost use Rattle.std.specs.Prelude.{◌≡◌, ℕ};
ghost use Rattle.model.specs.Opened.{fetch_line, line_at};
ghost use Rattle.chains.specs.Chains.{sheet_in};
ghost use Rattle.fetching.specs.Meaning.{line_reply, open_sheet};

use chains::rows::{Row, take_row};
use counters::numbers::Edge;
use lent::slices::View;
use tables::access::of;

// The row at a place, and the place behind it; no row, past the last one; or refusal 33.
#[derive(Clone, Copy)]
pub enum Line {
    Row(Row, u16),
    Past,
    Beyond,
}

// One pass over the edges: as many chains as stand before the place are passed over, which marks their edges.
pub fn line_at(tables: &View, marks: &mut [u16], edges: u16, place: u16) -> Line
    ensures { (vertices removals : ℕ) → line_reply (open_sheet vertices edges place removals) result
        ≡ fetch_line (open_sheet vertices edges place removals) (line_at place
        (sheet_in tables.now.degrees.now tables.now.sides.now tables.now.ends.now tables.now.lengths.now tables.now.volumes.now edges marks.old)) }
{
    let mut before = place;
    for edge in 0..edges {
        if of(marks, edge) != 0 {
            continue;
        }
        let row = take_row(
            tables.degrees,
            tables.sides,
            tables.ends,
            tables.lengths,
            tables.volumes,
            marks,
            Edge(edge),
            edges,
        );
        if before == 0 {
            return Line::Row(row, place + 1);
        }
        before -= 1;
    }
    Line::Past
}
