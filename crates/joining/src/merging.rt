// The chains of two leaves become one (document 01: merging), or, if that is one chain, a ring (document 02, S-2).
ghost use Rattle.std.specs.Prelude.{◌≡◌};
ghost use Rattle.tables.specs.Walks.{met};
ghost use Rattle.labels.specs.Labelling.{marks_in};
ghost use Rattle.labels.specs.Changes.{changed};
ghost use Rattle.joining.specs.Merging.{join_in, begin_in, close_in, keeper_for, keeper_in, merger_for, merge_by};

use counters::numbers::{Edge, Vertex};
use labels::changes::ChainChange;
use labels::labelling::{base, label_beyond, label_vertex, next_label, relabel_chain, rises};
use tables::access::one_more16;
use tables::kinds::{degree_of, label_of};
use tables::walks::{Meeting, Walker, leave_leaf, walk_lockstep};

// The chains of the leaves x and y are joined by edge e. x's keeps its labels; the next ones go to x, to y, and along y's chain. The
// answer counts the relabelled.
fn join_chains(
    degrees: &[u16],
    sides: &mut [u16],
    ends: &[u16],
    labels: &mut [u32],
    x: Vertex,
    y: Vertex,
    e: Edge,
    fuel: u16,
) -> u32
    ensures { marks_in sides.new labels.new result
        ≡ join_in degrees.now sides.old ends.now labels.old x.0 y.0 e.0 fuel }
{
    let kept = leave_leaf(sides, ends, x);
    let other = leave_leaf(sides, ends, y);
    let up = rises(sides, kept);
    let lx = next_label(label_of(labels, kept.at), up);
    let ly = next_label(lx, up);
    let n = label_vertex(sides, labels, x, lx, kept.edge, e, up);
    let m = label_vertex(sides, labels, y, ly, e, other.edge, up);
    let lz = next_label(ly, up);
    let rest = relabel_chain(degrees, sides, ends, labels, other, lz, up, fuel);
    n + (m + rest)
}

// The neighbours a and b become the first regular vertices of their chain, in block k. Neither is relabelled, since a leaf has no label.
fn begin_chain(
    sides: &mut [u16],
    labels: &mut [u32],
    a: Vertex,
    before: Edge,
    b: Vertex,
    after: Edge,
    between: Edge,
    k: u16,
)
    ensures { marks_in sides.new labels.new 0
        ≡ begin_in sides.old labels.old a.0 before.0 b.0 after.0 between.0 k }
{
    let low = base(k);
    label_vertex(sides, labels, a, low, before, between, true);
    label_vertex(
        sides,
        labels,
        b,
        next_label(low, true),
        between,
        after,
        true,
    );
}

// Edge e closes a ring: a and b are the leaves of one chain, which `first` and `second` have left. Each end gets the next label beyond
// its neighbour; or, without regular vertices, it is a birth. e is then the low edge of the lowest label and the high edge of the highest.
fn close_ring(
    sides: &mut [u16],
    labels: &mut [u32],
    blocks: u16,
    a: Vertex,
    b: Vertex,
    e: Edge,
    first: Walker,
    second: Walker,
) -> ChainChange
    ensures { changed sides.new labels.new result.blocks result.relabellings result.ring
        ≡ close_in sides.old labels.old blocks a.0 b.0 e.0
        first.edge.0 first.at.0 second.edge.0 second.at.0 }
{
    if first.at.0 == b.0 {
        let k = one_more16(blocks);
        begin_chain(sides, labels, a, e, b, e, first.edge, k);
        return ChainChange::closing(k);
    }
    label_beyond(sides, labels, a, e, first);
    label_beyond(sides, labels, b, e, second);
    ChainChange::closing(blocks)
}

// The leaf whose chain keeps its labels, and the other one.
#[derive(Clone, Copy)]
pub struct Keeper {
    pub kept: Vertex,
    pub other: Vertex,
}

// The chain with more regular vertices keeps its labels, a's on a tie: a walk that still stands at one is that of the longer chain. Where
// no chain has a regular vertex, neither does.
pub fn keeper_of(degrees: &[u16], meeting: Meeting, a: Vertex, b: Vertex) -> Option<Keeper>
    ensures { result ≡ keeper_for degrees.now a.0 b.0 (met meeting.first.at.0 meeting.second.at.0 meeting.steps) }
{
    if degree_of(degrees, meeting.second.at) == 2 {
        return Some(Keeper { kept: b, other: a });
    }
    if degree_of(degrees, meeting.first.at) == 2 {
        return Some(Keeper { kept: a, other: b });
    }
    if meeting.steps == 0 {
        return None;
    }
    Some(Keeper { kept: a, other: b })
}

// What an edge between two leaves would make of their chains: whether it closes a ring; if not, which of the two keeps its labels.
// Both are fields, as in a plan (placement::planning), and for its reason.
#[derive(Clone, Copy)]
pub struct Merger {
    pub ring: bool,
    pub keeper: Option<Keeper>,
}

// Walking in lockstep costs what the shorter chain has. It shows which keeps its labels; and it shows a ring, where a's walk ends at b.
// Nothing is written.
pub fn merger_of(
    degrees: &[u16],
    sides: &[u16],
    ends: &[u16],
    a: Vertex,
    b: Vertex,
    fuel: u16,
) -> Merger
    ensures { result ≡ merger_for degrees.now sides.now ends.now a.0 b.0 fuel }
{
    let first = leave_leaf(sides, ends, a);
    let second = leave_leaf(sides, ends, b);
    let met = walk_lockstep(degrees, sides, ends, first, second, fuel);
    if met.first.at.0 == b.0 {
        return Merger {
            ring: true,
            keeper: None,
        };
    }
    let keeper = keeper_of(degrees, met, a, b);
    Merger {
        ring: false,
        keeper,
    }
}

// The chains of the leaves a and b, which `first` and `second` have left, become one over edge e.
fn join_kept(
    keeper: Option<Keeper>,
    degrees: &[u16],
    sides: &mut [u16],
    ends: &[u16],
    labels: &mut [u32],
    blocks: u16,
    a: Vertex,
    b: Vertex,
    e: Edge,
    first: Walker,
    second: Walker,
    fuel: u16,
) -> ChainChange
    ensures { changed sides.new labels.new result.blocks result.relabellings result.ring
        ≡ keeper_in keeper degrees.now sides.old ends.now labels.old blocks a.0 b.0 e.0 fuel
        first.edge.0 second.edge.0 }
{
    match keeper {
        None => {
            let k = one_more16(blocks);
            begin_chain(sides, labels, a, first.edge, b, second.edge, e, k);
            ChainChange::new(k, 0)
        }
        Some(keeper) => {
            let n = join_chains(
                degrees,
                sides,
                ends,
                labels,
                keeper.kept,
                keeper.other,
                e,
                fuel,
            );
            ChainChange::new(blocks, n)
        }
    }
}

// The chains of the leaves a and b are merged over edge e, as `merger_of` found.
pub fn merge_chains(
    merger: Merger,
    degrees: &[u16],
    sides: &mut [u16],
    ends: &[u16],
    labels: &mut [u32],
    blocks: u16,
    a: Vertex,
    b: Vertex,
    e: Edge,
    fuel: u16,
) -> ChainChange
    ensures { changed sides.new labels.new result.blocks result.relabellings result.ring
        ≡ merge_by merger degrees.now sides.old ends.now labels.old blocks a.0 b.0 e.0 fuel }
{
    let first = leave_leaf(sides, ends, a);
    let second = leave_leaf(sides, ends, b);
    if merger.ring {
        return close_ring(sides, labels, blocks, a, b, e, first, second);
    }
    let keeper = merger.keeper;
    join_kept(
        keeper, degrees, sides, ends, labels, blocks, a, b, e, first, second, fuel,
    )
}
