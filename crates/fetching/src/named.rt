// The line of a sheet that was opened at so many vertices and edges: 33, or the row at its place, or none there.
ghost use Rattle.std.specs.Prelude.{◌≡◌, ℕ};
ghost use Rattle.counters.specs.Answers.{as_counts};
ghost use Rattle.lent.specs.Lent.{of_lent, SameLent};
ghost use Rattle.fetching.specs.Meaning.{line_reply, open_sheet};
ghost use Rattle.fetching.specs.Fetching.{fetch_in};

use crate::lines::{Line, line_at};
use counters::counts::Counts;
use counters::sizes::EDGES;
use holding::replay::regrow;
use lent::slices::{Tables, View};

// The opening's vertices and edges are landed on scratch that comes cleared. Its edges are lawful, so the landing is refused only where one
// names a vertex that is beyond the opening's.
pub fn line_named(
    register: &View,
    counts: Counts,
    scratch: &mut Tables,
    vertices: u16,
    edges: u16,
    place: u16,
) -> Line
    ensures lent { SameLent scratch.new scratch.old }
    ensures fetches { (removals : ℕ) → line_reply (open_sheet vertices edges place removals) result
        ≡ fetch_in register.now.ends.now register.now.lengths.now register.now.volumes.now (as_counts counts)
        (open_sheet vertices edges place removals) (of_lent scratch.old) }
{
    if counts.vertices < vertices {
        return Line::Beyond;
    }
    if counts.edges < edges {
        return Line::Beyond;
    }
    let opening = Counts {
        vertices,
        edges,
        blocks: 0,
        relabellings: 0,
    };
    match regrow(register, opening, scratch) {
        Ok(_) => {
            let mut marks = [0u16; EDGES];
            line_at(&scratch.view(), &mut marks, edges, place)
        }
        Err(_) => Line::Beyond,
    }
}
