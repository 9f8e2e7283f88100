// A distance between two vertices of a register: refusal 5, then the search. Scratch ends all zero.
ghost use Rattle.std.specs.Prelude.{◌≡◌, List, ℕ, ◌≤◌, length};
ghost use Rattle.model.specs.Basics.{max_vertices};
ghost use Rattle.counters.specs.Answers.{as_counts};
ghost use Rattle.tables.specs.Meaning.{tables};
ghost use Rattle.tables.specs.Steps.{zeroed};
ghost use Rattle.lent.specs.Lent.{of_lent, SameLent};
ghost use Rattle.questions.specs.Meaning.{measured_reply};
ghost use Rattle.questions.specs.Measure.{Measurable, measure_in};

use clearing::whole::clear_tables;
use counters::counts::Counts;
use counters::numbers::{Millimetres, Vertex};
use counters::refusals::Refusal;
use lent::slices::Tables;
use search::shortest::search;

// What the scratch holds at the end is of no use to the caller.
pub fn measure_in(
    ends: &[u16],
    lengths: &[u32],
    counts: Counts,
    heads: &mut [u16],
    heap: &mut [u16],
    next: &mut [u16],
    distances: &mut [u32],
    keys: &mut [u32],
    from: Vertex,
    to: Vertex,
) -> Result<Option<Millimetres>, Refusal>
    requires { Measurable ends.now lengths.now (as_counts counts) × (max_vertices ≤ length distances.old) }
    ensures { (degrees sides volumes labels : List ℕ) → measured_reply result
        ≡ measure_in (tables degrees sides ends.now lengths.now volumes labels) (as_counts counts) from.0 to.0 }
{
    let v = from.0;
    let w = to.0;
    if counts.vertices <= v {
        return Err(Refusal::NotLanded);
    }
    if counts.vertices <= w {
        return Err(Refusal::NotLanded);
    }
    let edges = counts.edges;
    Ok(search(
        ends, lengths, edges, v, w, heads, heap, next, distances, keys,
    ))
}

// The tables are those of a register: a replay has shown it, or the call grew them. Five scratch tables serve the search as heads,
// heap, next, distances and keys; all six are cleared.
pub fn measure(
    ends: &[u16],
    lengths: &[u32],
    counts: Counts,
    scratch: &mut Tables,
    from: Vertex,
    to: Vertex,
) -> Result<Option<Millimetres>, Refusal>
    requires { Measurable ends.now lengths.now (as_counts counts) × (max_vertices ≤ length scratch.old.lengths.now) }
    ensures lent { SameLent scratch.new scratch.old }
    ensures cleared { of_lent scratch.new ≡ zeroed (of_lent scratch.old) }
    ensures measured { (degrees sides volumes labels : List ℕ) → measured_reply result
        ≡ measure_in (tables degrees sides ends.now lengths.now volumes labels) (as_counts counts) from.0 to.0 }
{
    let answer = measure_in(
        ends,
        lengths,
        counts,
        scratch.degrees,
        scratch.sides,
        scratch.ends,
        scratch.lengths,
        scratch.labels,
        from,
        to,
    );
    clear_tables(scratch);
    answer
}
