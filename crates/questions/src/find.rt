// Find (document 02, S-7): a label (document 01: tag) gives the name of its chain (run), the regular vertex (coupling) that wears it, and
// the lengths from there to the low and the high end of the chain, in a ring 0 and its length; or 8. A vertex is asked for through its label.
ghost use Rattle.std.specs.Prelude.{◌≡◌, List, ℕ, length, replicate};
ghost use Rattle.counters.specs.Answers.{as_counts};
ghost use Rattle.tables.specs.Meaning.{tables};
ghost use Rattle.holders.specs.Finding.{find_at_in, find_in};
ghost use Rattle.questions.specs.Meaning.{found_reply};

use counters::counts::Counts;
use counters::numbers::{Label, Vertex};
use counters::refusals::Refusal;
use holders::newest::search_label;
use lent::slices::View;
use looking::through::FoundChain;
use tables::kinds::label_of;

// A table is lent for the order of the search; what it holds decides nothing.
pub fn find_in(
    degrees: &[u16],
    sides: &[u16],
    ends: &[u16],
    lengths: &[u32],
    labels: &[u32],
    vertices: u16,
    edges: u16,
    order: &mut [u16],
    label: Label,
) -> Result<FoundChain, Refusal>
    ensures { (volumes : List ℕ) → found_reply result
        ≡ find_in (tables degrees.now sides.now ends.now lengths.now volumes labels.now)
        vertices edges label.0 }
{
    let searched = search_label(
        degrees, sides, ends, lengths, labels, order, vertices, edges, label,
    );
    searched.found.ok_or(Refusal::NotRegular)
}

// The same; that table ends all zero.
pub fn find_cleared(
    register: &View,
    counts: Counts,
    order: &mut [u16],
    label: Label,
) -> Result<FoundChain, Refusal>
    ensures found { (volumes : List ℕ) → found_reply result
        ≡ find_in (tables register.now.degrees.now register.now.sides.now register.now.ends.now register.now.lengths.now volumes register.now.labels.now)
        (as_counts counts).vertices (as_counts counts).edges label.0 }
    ensures cleared { order.new ≡ replicate (length order.old) 0 }
{
    let found = find_in(
        register.degrees,
        register.sides,
        register.ends,
        register.lengths,
        register.labels,
        counts.vertices,
        counts.edges,
        order,
        label,
    );
    order.fill(0);
    found
}

// By a vertex, through its label, which is 0 where it has none: 8.
pub fn find_at_cleared(
    register: &View,
    counts: Counts,
    order: &mut [u16],
    vertex: Vertex,
) -> Result<FoundChain, Refusal>
    ensures found { (volumes : List ℕ) → found_reply result
        ≡ find_at_in (tables register.now.degrees.now register.now.sides.now register.now.ends.now register.now.lengths.now volumes register.now.labels.now)
        (as_counts counts).vertices (as_counts counts).edges vertex.0 }
    ensures cleared { order.new ≡ replicate (length order.old) 0 }
{
    let label = label_of(register.labels, vertex);
    find_cleared(register, counts, order, label)
}
