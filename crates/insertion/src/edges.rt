// One edge, placed as planned and written down: it leaves the tables and the counts.
ghost use Rattle.std.specs.Prelude.{◌≡◌, set, Ok};
ghost use Rattle.counters.specs.Answers.{as_counts};
ghost use Rattle.tables.specs.Meaning.{tables};
ghost use Rattle.tables.specs.Steps.{set_pair};
ghost use Rattle.insertion.specs.Insertion.{landing_in};
ghost use Rattle.insertion.specs.Planned.{insert_planned};
ghost use Rattle.insertion.specs.Meaning.{as_answer};

use counters::counts::Counts;
use counters::numbers::{Edge, Millilitres, Millimetres, Vertex};
use placement::planning::{Plan, place_edge};
use tables::access::{add32, one_more16};
use tables::kinds::{put_ends, put_length, put_volume};

// The counts after a record that landed (document 01: the head), and whether a ring may stand then.
#[derive(Clone, Copy)]
pub struct Inserted {
    pub counts: Counts,
    pub rings: bool,
}

// Edge e is written down, and nothing that another edge wrote is touched.
pub fn record_edge(
    ends: &mut [u16],
    lengths: &mut [u32],
    volumes: &mut [u32],
    e: Edge,
    a: Vertex,
    b: Vertex,
    length: Millimetres,
    volume: Millilitres,
)
    ensures { (ends.new ≡ set_pair ends.old e.0 a.0 b.0)
        × (lengths.new ≡ set lengths.old e.0 length.0)
        × (volumes.new ≡ set volumes.old e.0 volume.0) }
{
    put_ends(ends, e, a, b);
    put_length(lengths, e, length);
    put_volume(volumes, e, volume);
}

// The edge between first and second is placed as planned, and written down. Whether a ring may stand is carried along: a ring comes by a
// closing alone, so that a list grown without one never looks for it.
pub fn insert_edge(
    degrees: &mut [u16],
    sides: &mut [u16],
    ends: &mut [u16],
    lengths: &mut [u32],
    volumes: &mut [u32],
    labels: &mut [u32],
    counts: Counts,
    first: Vertex,
    second: Vertex,
    length: Millimetres,
    volume: Millilitres,
    plan: Plan,
    rings: bool,
) -> Inserted
    ensures { landing_in
        (tables degrees.new sides.new ends.new lengths.new volumes.new labels.new) (as_answer (Ok result))
        ≡ insert_planned plan
        (tables degrees.old sides.old ends.old lengths.old volumes.old labels.old)
        (as_counts counts) rings (record { first = first.0; second = second.0; len = length.0; volume = volume.0 }) }
{
    // below MAX_EDGES: 23 was tested
    let e = Edge(counts.edges);
    let p = place_edge(
        plan,
        degrees,
        sides,
        ends,
        labels,
        counts.blocks,
        first,
        second,
        e,
    );
    record_edge(ends, lengths, volumes, e, first, second, length, volume);
    let counts = Counts {
        vertices: counts.vertices,
        edges: one_more16(counts.edges),
        blocks: p.blocks,
        relabellings: add32(counts.relabellings, p.relabellings),
    };
    Inserted {
        counts,
        rings: rings || p.ring,
    }
}
