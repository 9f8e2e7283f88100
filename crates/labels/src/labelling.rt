// Labels (document 01: tags) along a chain. A vertex has its own label and its own low edge, and no chain is stored: that rules out
// document 01's "faults near at hand". Where each would have been:
// - the greatest key smaller than a label: `label_vertex`. It keeps no dictionary of lowest labels; a find looks for the label itself.
// - a stored weight that a split makes false: `label_vertex`. It stores none; a find adds up lengths.
// - a lone regular vertex always extended upwards: `rises`.
// - the second split in the chain as it was: `split_both` of parting.
// - the leaf's own chain split: `place_open` of placement.
ghost use Rattle.std.specs.Prelude.{◌≡◌};
ghost use Rattle.model.specs.Labels.{base, is_relabelled};
ghost use Rattle.labels.specs.Labelling.{marks_in, next_in, orient_in, label_vertex_in, relabel_in, rises_in, beyond_in, extend_in};

use counters::numbers::{Edge, Label, Vertex};
use tables::access::{one_more16, one_more32};
use tables::kinds::{degree_of, label_of, low_edge, put_label, put_sides};
use tables::walks::{Walker, leave_leaf, step_over};

// The first label of block k: document 01's base of the k-th birth.
pub fn base(k: u16) -> Label
    ensures { result.0 ≡ base k }
{
    Label(8192 * (k as u32))
}

// The label after this one, upwards or downwards.
pub fn next_label(label: Label, up: bool) -> Label
    ensures { result.0 ≡ next_in up label.0 }
{
    if up {
        return Label(one_more32(label.0));
    }
    if label.0 == 0 {
        return label;
    }
    Label(label.0 - 1)
}

// The sides of vertex v. Upwards the edge before it is the low one.
fn orient_sides(sides: &mut [u16], v: Vertex, before: Edge, after: Edge, up: bool)
    ensures { sides.new ≡ orient_in up sides.old v.0 before.0 after.0 }
{
    if up {
        put_sides(sides, v, before, after);
    } else {
        put_sides(sides, v, after, before);
    }
}

// Document 01's re-hanging: both labels are not 0, and they differ.
pub fn is_relabelled(old: Label, new: Label) -> bool
    ensures { result ≡ is_relabelled old.0 new.0 }
{
    if old.0 == 0 {
        return false;
    }
    if new.0 == 0 {
        return false;
    }
    old.0 != new.0
}

// Vertex v gets a label and its sides. The answer is drawn from the labels: 1 where v is relabelled.
pub fn label_vertex(
    sides: &mut [u16],
    labels: &mut [u32],
    v: Vertex,
    label: Label,
    before: Edge,
    after: Edge,
    up: bool,
) -> u32
    ensures { marks_in sides.new labels.new result
        ≡ label_vertex_in sides.old labels.old v.0 label.0 before.0 after.0 up }
{
    let old = label_of(labels, v);
    put_label(labels, v, label);
    orient_sides(sides, v, before, after, up);
    if is_relabelled(old, label) { 1 } else { 0 }
}

// The regular vertices from the walker's on get the labels from `label` on. The answer counts the relabelled. Each step is found
// before the vertex is labelled, since that changes its sides.
pub fn relabel_chain(
    degrees: &[u16],
    sides: &mut [u16],
    ends: &[u16],
    labels: &mut [u32],
    from: Walker,
    label: Label,
    up: bool,
    fuel: u16,
) -> u32
    ensures { marks_in sides.new labels.new result
        ≡ relabel_in degrees.now ends.now up fuel sides.old labels.old
        from.edge.0 from.at.0 label.0 }
{
    let mut w = from;
    let mut next = label;
    let mut count: u32 = 0;
    for _ in 0..fuel {
        if degree_of(degrees, w.at) != 2 {
            break;
        }
        let on = step_over(sides, ends, w);
        count += label_vertex(sides, labels, w.at, next, w.edge, on.edge, up);
        next = next_label(next, up);
        w = on;
    }
    count
}

// Whether labels rise from the walker's vertex back over its edge: that edge is not the low one. A lone regular vertex that a split
// left has its sides still, so at its low end labels fall; were they to rise there too, two chains would soon share one.
pub fn rises(sides: &[u16], w: Walker) -> bool
    ensures { result ≡ rises_in sides.now w.edge.0 w.at.0 }
{
    low_edge(sides, w.at).0 != w.edge.0
}

// The leaf x gets the next label beyond its neighbour, at which w stands; e is its other edge now. A leaf has no label, so it is not
// relabelled.
pub fn label_beyond(sides: &mut [u16], labels: &mut [u32], x: Vertex, e: Edge, w: Walker)
    ensures { marks_in sides.new labels.new 0
        ≡ beyond_in sides.old labels.old x.0 e.0 w.edge.0 w.at.0 }
{
    let up = rises(sides, w);
    let label = next_label(label_of(labels, w.at), up);
    label_vertex(sides, labels, x, label, w.edge, e, up);
}

// The chain at the leaf x goes on over edge e. The answer is the number of blocks.
pub fn extend_chain(
    degrees: &[u16],
    sides: &mut [u16],
    ends: &[u16],
    labels: &mut [u32],
    blocks: u16,
    x: Vertex,
    e: Edge,
) -> u16
    ensures { marks_in sides.new labels.new result
        ≡ extend_in degrees.now sides.old ends.now labels.old blocks x.0 e.0 }
{
    let w = leave_leaf(sides, ends, x);
    if degree_of(degrees, w.at) == 2 {
        label_beyond(sides, labels, x, e, w);
        return blocks;
    }
    let k = one_more16(blocks);
    label_vertex(sides, labels, x, base(k), w.edge, e, true);
    k
}
