// What an edge does to the degrees, the sides and the labels, once it is known what lies about its ends. e edges were landed before, which
// is fuel enough for every walk.
ghost use Rattle.std.specs.Prelude.{◌≡◌};
ghost use Rattle.checking.specs.Meaning.{as_case};
ghost use Rattle.placement.specs.Placing.{meet_in, placed, work_for};
ghost use Rattle.placement.specs.Planning.{opened_by, open_by, merged_by};

use checking::cases::Case;
use counters::numbers::{Edge, Vertex};
use joining::merging::{Merger, merge_chains};
use labels::changes::ChainChange;
use labels::labelling::extend_chain;
use parting::splitting::{Rounds, Splits, split_ends};
use tables::kinds::{degree_of, put_sides};
use tables::steps::raise_both;

// What is done for an edge: the chains of both ends are merged; or both ends are opened, those that are regular by a split, and then a
// leaf's chain goes on over the edge, if one does. Two kinds of work, of which neither is the lack of the other.
#[derive(Clone, Copy)]
pub enum Work {
    Merge,
    Open(Splits, Option<Vertex>),
}

// Document 01's cases. Document 02's ring is closed where chains are merged, and tapped where one is split.
pub fn work_of(case: Case, a: Vertex, b: Vertex) -> Work
    ensures { result ≡ work_for (as_case case) a.0 b.0 }
{
    match case {
        Case::New => Work::Open(Splits::Neither, None),
        Case::ExtendFirst => Work::Open(Splits::Neither, Some(a)),
        Case::ExtendSecond => Work::Open(Splits::Neither, Some(b)),
        Case::Merge => Work::Merge,
        Case::SplitExtendFirst => Work::Open(Splits::One(b, a), Some(a)),
        Case::SplitExtendSecond => Work::Open(Splits::One(a, b), Some(b)),
        Case::SplitFirst => Work::Open(Splits::One(a, b), None),
        Case::SplitSecond => Work::Open(Splits::One(b, a), None),
        Case::SplitBoth => Work::Open(Splits::Both, None),
    }
}

// Edge e comes to vertex v: an isolated one becomes a leaf with e as its only edge.
fn meet_end(degrees: &[u16], sides: &mut [u16], v: Vertex, e: Edge)
    ensures { sides.new ≡ meet_in degrees.now sides.old v.0 e.0 }
{
    if degree_of(degrees, v) == 0 {
        put_sides(sides, v, e, Edge(0));
    }
}

// Both ends before the edge comes to them.
fn open_both(
    splits: Splits,
    rounds: Rounds,
    degrees: &mut [u16],
    sides: &mut [u16],
    ends: &[u16],
    labels: &mut [u32],
    blocks: u16,
    a: Vertex,
    b: Vertex,
    e: Edge,
) -> ChainChange
    ensures { placed degrees.new sides.new labels.new result.blocks result.relabellings result.ring
        ≡ opened_by splits rounds degrees.old sides.old ends.now labels.old blocks a.0 b.0 e.0 }
{
    let c = split_ends(splits, rounds, degrees, sides, ends, labels, blocks, a, b);
    meet_end(degrees, sides, a, e);
    meet_end(degrees, sides, b, e);
    raise_both(degrees, a, b);
    c
}

// Both ends are opened, and then the chain of a leaf goes on over the edge, if one does. If it is the leaf's own chain that was split,
// which the edge makes a loop, the leaf is labelled by what the split left, with the new degrees.
pub fn place_open(
    splits: Splits,
    rounds: Rounds,
    extension: Option<Vertex>,
    degrees: &mut [u16],
    sides: &mut [u16],
    ends: &[u16],
    labels: &mut [u32],
    blocks: u16,
    a: Vertex,
    b: Vertex,
    e: Edge,
) -> ChainChange
    ensures { placed degrees.new sides.new labels.new result.blocks result.relabellings result.ring
        ≡ open_by splits rounds extension degrees.old sides.old ends.now labels.old blocks a.0 b.0 e.0 }
{
    let c = open_both(
        splits, rounds, degrees, sides, ends, labels, blocks, a, b, e,
    );
    match extension {
        None => c,
        Some(x) => {
            let k = extend_chain(degrees, sides, ends, labels, c.blocks, x, e);
            ChainChange::new(k, c.relabellings)
        }
    }
}

// The chains of both ends are merged, or become a ring.
pub fn place_merged(
    merger: Merger,
    degrees: &mut [u16],
    sides: &mut [u16],
    ends: &[u16],
    labels: &mut [u32],
    blocks: u16,
    a: Vertex,
    b: Vertex,
    e: Edge,
) -> ChainChange
    ensures { placed degrees.new sides.new labels.new result.blocks result.relabellings result.ring
        ≡ merged_by merger degrees.old sides.old ends.now labels.old blocks a.0 b.0 e.0 }
{
    let c = merge_chains(merger, degrees, sides, ends, labels, blocks, a, b, e, e.0);
    raise_both(degrees, a, b);
    c
}
