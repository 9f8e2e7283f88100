// The line of an opened sheet, and scratch that is all zero again.
ghost use Rattle.std.specs.Prelude.{◌≡◌, ℕ};
ghost use Rattle.counters.specs.Answers.{as_counts};
ghost use Rattle.lent.specs.Lent.{of_lent, SameLent};
ghost use Rattle.tables.specs.Steps.{zeroed};
ghost use Rattle.fetching.specs.Meaning.{line_reply, open_sheet};
ghost use Rattle.fetching.specs.Fetching.{fetch_in};

use crate::lines::Line;
use crate::named::line_named;
use clearing::whole::clear_tables;
use counters::counts::Counts;
use lent::slices::{Tables, View};

pub fn line_cleared(
    register: &View,
    counts: Counts,
    scratch: &mut Tables,
    vertices: u16,
    edges: u16,
    place: u16,
) -> Line
    ensures lent { SameLent scratch.new scratch.old }
    ensures fetches { (removals : ℕ) → line_reply (open_sheet vertices edges place removals) result
        ≡ fetch_in register.now.ends.now register.now.lengths.now register.now.volumes.now (as_counts counts)
        (open_sheet vertices edges place removals) (of_lent scratch.old) }
    ensures cleared { of_lent scratch.new ≡ zeroed (of_lent scratch.old) }
{
    let line = line_named(register, counts, scratch, vertices, edges, place);
    clear_tables(scratch);
    line
}
