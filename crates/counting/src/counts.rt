// How many vertices an edge would relabel (document 02, S-5: a quote's re-hangings). Nothing is written.
ghost use Rattle.std.specs.Prelude.{◌≡◌, get_or};
ghost use Rattle.counting.specs.Counting.{moved_in, count_in, join_count_in, keeper_count_in, estimated, merger_count, round_count, rounds_count};

use counters::numbers::{Label, Vertex};
use joining::merging::{Keeper, Merger};
use labels::labelling::{is_relabelled, next_label, rises};
use parting::splitting::Rounds;
use tables::kinds::{degree_of, label_of};
use tables::rings::Round;
use tables::walks::{Walker, leave_leaf, step_over};

// Whether the edge would close a ring, and how many vertices would be relabelled.
#[derive(Clone, Copy)]
pub struct Estimate {
    pub ring: bool,
    pub count: u32,
}

// 1 where vertex v would be relabelled.
fn moved(labels: &[u32], v: Vertex, label: Label) -> u32
    ensures { result ≡ moved_in (get_or labels.now v.0 0) label.0 }
{
    let old = label_of(labels, v);
    if is_relabelled(old, label) { 1 } else { 0 }
}

// The regular vertices from the walker's on that would be relabelled by the labels from `label` on: `relabel_chain`, which reads only.
fn count_relabelled(
    degrees: &[u16],
    sides: &[u16],
    ends: &[u16],
    labels: &[u32],
    from: Walker,
    label: Label,
    up: bool,
    fuel: u16,
) -> u32
    ensures { result ≡ count_in degrees.now sides.now ends.now labels.now up fuel
        from.edge.0 from.at.0 label.0 }
{
    let mut w = from;
    let mut next = label;
    let mut count: u32 = 0;
    for _ in 0..fuel {
        if degree_of(degrees, w.at) != 2 {
            break;
        }
        let on = step_over(sides, ends, w);
        count += moved(labels, w.at, next);
        next = next_label(next, up);
        w = on;
    }
    count
}

// The chains of the leaves x and y would be joined, and x's would keep its labels. The leaves have none, so they are not relabelled.
fn count_joined(
    degrees: &[u16],
    sides: &[u16],
    ends: &[u16],
    labels: &[u32],
    x: Vertex,
    y: Vertex,
    fuel: u16,
) -> u32
    ensures { result ≡ join_count_in degrees.now sides.now ends.now labels.now x.0 y.0 fuel }
{
    let kept = leave_leaf(sides, ends, x);
    let other = leave_leaf(sides, ends, y);
    let up = rises(sides, kept);
    let lx = next_label(label_of(labels, kept.at), up);
    let ly = next_label(lx, up);
    let lz = next_label(ly, up);
    count_relabelled(degrees, sides, ends, labels, other, lz, up, fuel)
}

// The chains would be joined, by which of them keeps its labels.
fn count_kept(
    keeper: Option<Keeper>,
    degrees: &[u16],
    sides: &[u16],
    ends: &[u16],
    labels: &[u32],
    fuel: u16,
) -> u32
    ensures { result ≡ keeper_count_in keeper degrees.now sides.now ends.now labels.now fuel }
{
    match keeper {
        None => 0,
        Some(keeper) => count_joined(
            degrees,
            sides,
            ends,
            labels,
            keeper.kept,
            keeper.other,
            fuel,
        ),
    }
}

// The chains of two leaves would be merged, as `merger_of` found; or closed to a ring, which relabels nothing.
pub fn count_merged(
    merger: Merger,
    degrees: &[u16],
    sides: &[u16],
    ends: &[u16],
    labels: &[u32],
    fuel: u16,
) -> Estimate
    ensures { estimated result.ring result.count
        ≡ merger_count merger degrees.now sides.now ends.now labels.now fuel }
{
    let keeper = merger.keeper;
    let count = count_kept(keeper, degrees, sides, ends, labels, fuel);
    Estimate {
        ring: merger.ring,
        count,
    }
}

// A tap gives all others of the ring labels of a new block, so that each is relabelled; but the other end of the edge, if it shares the
// ring, loses its label.
fn round_count(round: Round) -> u16
    ensures { result ≡ round_count round }
{
    match round {
        Round::NoRing => 0,
        Round::Ring(others) => others,
        Round::Shared(others) => {
            if others == 0 {
                return 0;
            }
            others - 1
        }
    }
}

// The regular ends of an edge would be split, as `rounds_for` found them.
pub fn count_split(rounds: Rounds) -> u32
    ensures { result ≡ rounds_count rounds }
{
    let first = rounds.first;
    let second = rounds.second;
    let n = round_count(first);
    let m = round_count(second);
    (n as u32) + (m as u32)
}
