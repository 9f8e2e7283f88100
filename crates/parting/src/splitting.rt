// A regular vertex is regular no more: its chain is split there (document 01: splitting), or its ring is tapped (document 02, S-2).
ghost use Rattle.std.specs.Prelude.{◌≡◌};
ghost use Rattle.labels.specs.Labelling.{marks_in};
ghost use Rattle.labels.specs.Changes.{changed};
ghost use Rattle.parting.specs.Splitting.{bare_in, tap_in, split_by, left_for, no_rounds, rounds_one, rounds_both, rounds_for, both_by, ends_by};

use counters::numbers::{Edge, Label, Vertex};
use labels::changes::ChainChange;
use labels::labelling::{base, relabel_chain};
use tables::access::{add32, one_more16};
use tables::kinds::{put_label, put_sides};
use tables::rings::{Round, leave_lower, ring_at};

// Vertex v loses its label and its sides. The pieces of its chain keep theirs: no other vertex is touched.
fn bare_vertex(sides: &mut [u16], labels: &mut [u32], v: Vertex)
    ensures { marks_in sides.new labels.new 0 ≡ bare_in sides.old labels.old v.0 }
{
    put_sides(sides, v, Edge(0), Edge(0));
    put_label(labels, v, Label(0));
}

// The ring of v becomes a loop at v, in block k. Labels rise round it from the neighbour along the lower-numbered edge of v; so many
// others are labelled. The answer counts the relabelled.
fn tap_ring(
    degrees: &[u16],
    sides: &mut [u16],
    ends: &[u16],
    labels: &mut [u32],
    v: Vertex,
    k: u16,
    others: u16,
) -> u32
    ensures { marks_in sides.new labels.new result
        ≡ tap_in degrees.now sides.old ends.now labels.old v.0 k others }
{
    let from = leave_lower(sides, ends, v);
    let n = relabel_chain(degrees, sides, ends, labels, from, base(k), true, others);
    bare_vertex(sides, labels, v);
    n
}

// Vertex v is split off, with what lies round about it; w is the other end of the edge. A ring that both share is tapped here, and w
// loses its label before: it has none after the edge, so it is not relabelled on the way.
fn split_by(
    round: Round,
    degrees: &[u16],
    sides: &mut [u16],
    ends: &[u16],
    labels: &mut [u32],
    blocks: u16,
    v: Vertex,
    w: Vertex,
) -> ChainChange
    ensures { changed sides.new labels.new result.blocks result.relabellings result.ring
        ≡ split_by round degrees.now sides.old ends.now labels.old blocks v.0 w.0 }
{
    match round {
        Round::NoRing => {
            bare_vertex(sides, labels, v);
            ChainChange::new(blocks, 0)
        }
        Round::Ring(others) => {
            let k = one_more16(blocks);
            let n = tap_ring(degrees, sides, ends, labels, v, k, others);
            ChainChange::new(k, n)
        }
        Round::Shared(others) => {
            put_label(labels, w, Label(0));
            let k = one_more16(blocks);
            let n = tap_ring(degrees, sides, ends, labels, v, k, others);
            ChainChange::new(k, n)
        }
    }
}

// Which ends of an edge are regular: neither; one, and then the other end; both.
#[derive(Clone, Copy)]
pub enum Splits {
    Neither,
    One(Vertex, Vertex),
    Both,
}

// What lies round about the vertices that are split when their turn comes: the first, or the only one; and the second.
#[derive(Clone, Copy)]
pub struct Rounds {
    pub first: Round,
    pub second: Round,
}

impl Rounds {
    // No ring stands.
    pub fn none() -> Rounds
        ensures { result ≡ no_rounds }
    {
        Rounds {
            first: Round::NoRing,
            second: Round::NoRing,
        }
    }
}

// What the first split leaves round about the second vertex: a ring that they shared is one no more.
pub fn left_for(second: Round) -> Round
    ensures { result ≡ left_for second }
{
    match second {
        Round::NoRing => Round::NoRing,
        Round::Ring(others) => Round::Ring(others),
        Round::Shared(_) => Round::NoRing,
    }
}

// Round about v alone; w is the other end of the edge, and singular. A ring is looked for where one may stand.
fn rounds_one(
    degrees: &[u16],
    sides: &[u16],
    ends: &[u16],
    v: Vertex,
    w: Vertex,
    fuel: u16,
    rings: bool,
) -> Rounds
    ensures { result ≡ rounds_one degrees.now sides.now ends.now v.0 w.0 fuel rings }
{
    if rings {
        let first = ring_at(degrees, sides, ends, v, w, fuel);
        return Rounds {
            first,
            second: Round::NoRing,
        };
    }
    Rounds::none()
}

// Round about a and b, a first.
fn rounds_both(
    degrees: &[u16],
    sides: &[u16],
    ends: &[u16],
    a: Vertex,
    b: Vertex,
    fuel: u16,
    rings: bool,
) -> Rounds
    ensures { result ≡ rounds_both degrees.now sides.now ends.now a.0 b.0 fuel rings }
{
    if rings {
        let first = ring_at(degrees, sides, ends, a, b, fuel);
        let second = left_for(ring_at(degrees, sides, ends, b, a, fuel));
        return Rounds { first, second };
    }
    Rounds::none()
}

// What lies round about the regular ends of an edge between a and b. Nothing is written. Which ends they are is tested before whether a
// ring may stand: the compiler then makes one branch of this and of `split_ends`.
pub fn rounds_for(
    splits: Splits,
    degrees: &[u16],
    sides: &[u16],
    ends: &[u16],
    a: Vertex,
    b: Vertex,
    fuel: u16,
    rings: bool,
) -> Rounds
    ensures { result ≡ rounds_for splits degrees.now sides.now ends.now a.0 b.0 fuel rings }
{
    match splits {
        Splits::Neither => Rounds::none(),
        Splits::One(v, w) => rounds_one(degrees, sides, ends, v, w, fuel, rings),
        Splits::Both => rounds_both(degrees, sides, ends, a, b, fuel, rings),
    }
}

// The regular vertices a and b are split, a first.
fn split_both(
    rounds: Rounds,
    degrees: &[u16],
    sides: &mut [u16],
    ends: &[u16],
    labels: &mut [u32],
    blocks: u16,
    a: Vertex,
    b: Vertex,
) -> ChainChange
    ensures { changed sides.new labels.new result.blocks result.relabellings result.ring
        ≡ both_by rounds degrees.now sides.old ends.now labels.old blocks a.0 b.0 }
{
    let first = rounds.first;
    let second = rounds.second;
    let c = split_by(first, degrees, sides, ends, labels, blocks, a, b);
    let d = split_by(second, degrees, sides, ends, labels, c.blocks, b, a);
    ChainChange::new(d.blocks, add32(c.relabellings, d.relabellings))
}

// The regular ends of the edge between a and b are split, as `rounds_for` found them.
pub fn split_ends(
    splits: Splits,
    rounds: Rounds,
    degrees: &[u16],
    sides: &mut [u16],
    ends: &[u16],
    labels: &mut [u32],
    blocks: u16,
    a: Vertex,
    b: Vertex,
) -> ChainChange
    ensures { changed sides.new labels.new result.blocks result.relabellings result.ring
        ≡ ends_by splits rounds degrees.now sides.old ends.now labels.old blocks a.0 b.0 }
{
    match splits {
        Splits::Neither => ChainChange::new(blocks, 0),
        Splits::One(v, w) => {
            let round = rounds.first;
            split_by(round, degrees, sides, ends, labels, blocks, v, w)
        }
        Splits::Both => split_both(rounds, degrees, sides, ends, labels, blocks, a, b),
    }
}
