// The list of a register, from its tables of ends, lengths and volumes.
ghost use Rattle.std.specs.Prelude.{◌≡◌, [], ◌∷◌};
ghost use Rattle.model.specs.Basics.{up_to};
ghost use Rattle.counters.specs.Answers.{as_counts};
ghost use Rattle.text.specs.Pages.{page, write};
ghost use Rattle.list.specs.Writing.{list_in, records_in};

use counters::counts::Counts;
use tables::access;
use text::records::{put_edge, put_header, put_vertices};

fn put_edge_of(
    out: &mut [u8],
    at: usize,
    ends: &[u16],
    lengths: &[u32],
    volumes: &[u32],
    edge: u16,
) -> usize
    ensures { page out.new result
        ≡ write (records_in ends.now lengths.now volumes.now (edge ∷ [])) (page out.old at) }
{
    let i = 2 * (edge as usize);
    put_edge(
        out,
        at,
        access::at(ends, i),
        access::at(ends, i + 1),
        access::of(lengths, edge),
        access::of(volumes, edge),
    )
}

// The edges by number.
fn put_edges(
    out: &mut [u8],
    at: usize,
    ends: &[u16],
    lengths: &[u32],
    volumes: &[u32],
    edges: u16,
) -> usize
    ensures { page out.new result
        ≡ write (records_in ends.now lengths.now volumes.now (up_to edges)) (page out.old at) }
{
    let mut next = at;
    for edge in 0..edges {
        next = put_edge_of(out, next, ends, lengths, volumes, edge);
    }
    next
}

// "all fittings, then the pipes by number", from the front of the slice on.
pub fn put_list(
    out: &mut [u8],
    ends: &[u16],
    lengths: &[u32],
    volumes: &[u32],
    counts: Counts,
) -> usize
    ensures { page out.new result
        ≡ write (list_in ends.now lengths.now volumes.now (as_counts counts)) (page out.old 0) }
{
    let vertices = put_header(out, 0);
    let edges = put_vertices(out, vertices, counts.vertices);
    put_edges(out, edges, ends, lengths, volumes, counts.edges)
}
