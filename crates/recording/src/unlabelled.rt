// One edge without labels: its refusals, and then the edge itself, the degrees of its ends, and where it stands at them.
ghost use Rattle.std.specs.Prelude.{◌≡◌, [], ◌≤◌, Ok};
ghost use Rattle.model.specs.Basics.{max_edges};
ghost use Rattle.counters.specs.Answers.{as_counts};
ghost use Rattle.tables.specs.Meaning.{tables};
ghost use Rattle.tables.specs.Steps.{raise_both_in};
ghost use Rattle.insertion.specs.Insertion.{landing_in};
ghost use Rattle.insertion.specs.Meaning.{as_answer};
ghost use Rattle.recording.specs.Unlabelled.{place_for, note_in, note_both_in, note_edge_in, unlabelled_in};

use checking::checks::check_edge;
use counters::counts::Counts;
use counters::numbers::{Edge, Millilitres, Millimetres, Vertex};
use counters::refusals::Refusal;
use counters::sizes::MAX_EDGES;
use insertion::edges::{Inserted, record_edge};
use tables::access::{one_more16, put};
use tables::kinds::degree_of;
use tables::steps::raise_both;

// Where the next edge stands at a vertex of this degree: the first one on the low side, any other on the high side. As an index it needs no
// branch in the compiled code, where a branch could not be foreseen.
fn place_for(degree: u16) -> usize
    ensures { (result ≡ place_for degree) × (result ≤ 1) }
{
    if degree == 0 { 0 } else { 1 }
}

// Edge e comes to vertex v. The sides of a regular vertex are then its two edges. At a branch they mean nothing, and no walk reads them.
fn note_end(degrees: &[u16], sides: &mut [u16], v: Vertex, e: Edge)
    ensures { sides.new ≡ note_in degrees.now sides.old v.0 e.0 }
{
    let at = 2 * (v.0 as usize);
    let degree = degree_of(degrees, v);
    let place = place_for(degree);
    put(sides, at + place, e.0);
}

// Edge e comes to two vertices.
fn note_both(degrees: &mut [u16], sides: &mut [u16], a: Vertex, b: Vertex, e: Edge)
    ensures { (degrees.new ≡ raise_both_in degrees.old a.0 b.0)
        × (sides.new ≡ note_both_in degrees.old sides.old a.0 b.0 e.0) }
{
    note_end(degrees, sides, a, e);
    note_end(degrees, sides, b, e);
    raise_both(degrees, a, b);
}

// An edge that passed its refusals. No label is hung, so births and the total of relabellings stay, and so does what is told of rings.
fn note_edge(
    degrees: &mut [u16],
    sides: &mut [u16],
    ends: &mut [u16],
    lengths: &mut [u32],
    volumes: &mut [u32],
    counts: Counts,
    first: Vertex,
    second: Vertex,
    length: Millimetres,
    volume: Millilitres,
    rings: bool,
) -> Inserted
    ensures { landing_in
        (tables degrees.new sides.new ends.new lengths.new volumes.new []) (as_answer (Ok result))
        ≡ note_edge_in
        (tables degrees.old sides.old ends.old lengths.old volumes.old [])
        (as_counts counts) rings (record { first = first.0; second = second.0; len = length.0; volume = volume.0 }) }
{
    // below MAX_EDGES: 23 was tested
    let e = Edge(counts.edges);
    note_both(degrees, sides, first, second, e);
    record_edge(ends, lengths, volumes, e, first, second, length, volume);
    let counts = Counts {
        vertices: counts.vertices,
        edges: one_more16(counts.edges),
        blocks: counts.blocks,
        relabellings: counts.relabellings,
    };
    Inserted { counts, rings }
}

// Every refusal in its order, without a licence; a refused edge leaves the tables.
pub fn land_unlabelled(
    degrees: &mut [u16],
    sides: &mut [u16],
    ends: &mut [u16],
    lengths: &mut [u32],
    volumes: &mut [u32],
    counts: Counts,
    first: u16,
    second: u16,
    length: u32,
    volume: u32,
    rings: bool,
) -> Result<Inserted, Refusal>
    ensures { landing_in
        (tables degrees.new sides.new ends.new lengths.new volumes.new []) (as_answer result)
        ≡ unlabelled_in
        (tables degrees.old sides.old ends.old lengths.old volumes.old [])
        (as_counts counts) max_edges rings (record { first = first; second = second; len = length; volume = volume }) }
{
    let edge = check_edge(counts, MAX_EDGES, first, second, length, volume)?;
    Ok(note_edge(
        degrees,
        sides,
        ends,
        lengths,
        volumes,
        counts,
        edge.first,
        edge.second,
        edge.length,
        edge.volume,
        rings,
    ))
}
