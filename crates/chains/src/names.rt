// The chains by their names: in a pass over the edges by rising number a chain's first edge is its name, and the others get marks.
ghost use Rattle.std.specs.Prelude.{◌≡◌, length, leb};
ghost use Rattle.chains.specs.Chains.{mark_chain_in, names_in};

use crate::marks::mark_onwards;
use counters::numbers::Edge;
use tables::access::of;
use tables::kinds::{degree_of, first_end, second_end};

// Marks all other edges on the chain of an edge: once round a ring, or both ways to the chain's ends.
fn mark_chain(
    degrees: &[u16],
    sides: &[u16],
    ends: &[u16],
    marks: &mut [u16],
    edge: Edge,
    fuel: u16,
)
    ensures { marks.new
        ≡ mark_chain_in degrees.now sides.now ends.now fuel marks.old edge.0 }
{
    let first = first_end(ends, edge);
    let second = second_end(ends, edge);
    let end = mark_onwards(degrees, sides, ends, marks, edge, second, first, fuel);
    if degree_of(degrees, end) == 2 {
        return;
    }
    mark_onwards(degrees, sides, ends, marks, edge, first, end, fuel);
}

// How many chains there are.
pub fn count_chains(
    degrees: &[u16],
    sides: &[u16],
    ends: &[u16],
    marks: &mut [u16],
    edges: u16,
) -> u16
    ensures { result ≡ length (names_in degrees.now sides.now ends.now edges marks.old) }
{
    let mut count: u16 = 0;
    for edge in 0..edges {
        if of(marks, edge) != 0 {
            continue;
        }
        mark_chain(degrees, sides, ends, marks, Edge(edge), edges);
        count += 1;
    }
    count
}

// Whether there are at most so many chains. They are no more than the edges, so they are counted only where there is less room than that.
pub fn has_room(
    degrees: &[u16],
    sides: &[u16],
    ends: &[u16],
    marks: &mut [u16],
    edges: u16,
    rows: usize,
) -> bool
    ensures { result
        ≡ leb (length (names_in degrees.now sides.now ends.now edges marks.old)) rows }
{
    if (edges as usize) <= rows {
        return true;
    }
    let count = count_chains(degrees, sides, ends, marks, edges);
    (count as usize) <= rows
}
