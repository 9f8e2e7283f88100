// A chain looked through for a label, in one walk: from its vertex with the highest label down, or from that with the lowest up.
ghost use Rattle.std.specs.Prelude.{◌≡◌};
ghost use Rattle.looking.specs.Looking.{edge_towards, look_along_in, look_in, look_through_in, told_in, wearer_in, with_edge};
ghost use Rattle.looking.specs.Answers.{as_found, as_look, as_seen};

use chains::walks::goes_on;
use counters::numbers::{Edge, Label, Millimetres, Vertex};
use tables::access::one_more16;
use tables::kinds::{degree_of, high_edge, label_of, length_of, low_edge};
use tables::steps::{add_lengths, far_end};
use tables::walks::{Walker, step_over};

// What is known of the edges that a walk has gone along: the vertex that wears the label, as v + 1, or 0; the lengths before it and behind
// it; the least number.
#[derive(Clone, Copy)]
pub struct Seen {
    pub wearer: u16,
    pub before: Millimetres,
    pub behind: Millimetres,
    pub lowest: Edge,
}

// Where a walk ends, and what is known then.
#[derive(Clone, Copy)]
pub struct Look {
    pub at: Vertex,
    pub known: Seen,
}

// The name of the chain that holds the label, the vertex that wears it, and the lengths from there to the low and to the high end.
#[derive(Clone, Copy)]
pub struct FoundChain {
    pub name: Edge,
    pub wearer: Vertex,
    pub low: Millimetres,
    pub high: Millimetres,
}

// The first that wears the label: one before vertex v, or v.
fn wearer_with(labels: &[u32], label: Label, wearer: u16, v: Vertex) -> u16
    ensures { result ≡ wearer_in labels.now label.0 wearer v.0 }
{
    if wearer != 0 {
        return wearer;
    }
    let own = label_of(labels, v);
    if own.0 == label.0 { one_more16(v.0) } else { 0 }
}

// One edge more, along which the walk leaves vertex v.
fn with_edge(lengths: &[u32], labels: &[u32], label: Label, known: Seen, v: Vertex, d: Edge) -> Seen
    ensures { as_seen result ≡ with_edge lengths.now labels.now label.0 (as_seen known) v.0 d.0 }
{
    let wearer = wearer_with(labels, label, known.wearer, v);
    let own = length_of(lengths, d);
    let lowest = d.min(known.lowest);
    let before = known.before;
    let behind = known.behind;
    if wearer == 0 {
        return Seen {
            wearer,
            before: add_lengths(before, own),
            behind,
            lowest,
        };
    }
    Seen {
        wearer,
        before,
        behind: add_lengths(behind, own),
        lowest,
    }
}

// The walk of one who comes along an edge to vertex `from`, to the chain's end or home.
fn look_onwards(
    degrees: &[u16],
    sides: &[u16],
    ends: &[u16],
    lengths: &[u32],
    labels: &[u32],
    label: Label,
    known: Seen,
    edge: Edge,
    from: Vertex,
    home: Vertex,
    fuel: u16,
) -> Look
    ensures { as_look result
        ≡ look_in degrees.now sides.now ends.now lengths.now labels.now label.0 home.0 fuel
        (as_seen known) edge.0 from.0 }
{
    let mut w = Walker { edge, at: from };
    let mut so_far = known;
    for _ in 0..fuel {
        if !goes_on(degrees, home, w.at) {
            break;
        }
        let v = Vertex(w.at.0);
        w = step_over(sides, ends, w);
        so_far = with_edge(lengths, labels, label, so_far, v, w.edge);
    }
    Look {
        at: Vertex(w.at.0),
        known: so_far,
    }
}

// From vertex v along its edge `on`, to the chain's end, or round a ring to v again; `back` is its other edge.
fn look_along(
    degrees: &[u16],
    sides: &[u16],
    ends: &[u16],
    lengths: &[u32],
    labels: &[u32],
    label: Label,
    v: Vertex,
    on: Edge,
    back: Edge,
    fuel: u16,
) -> Look
    ensures { as_look result
        ≡ look_along_in degrees.now sides.now ends.now lengths.now labels.now label.0 fuel
        v.0 on.0 back.0 }
{
    let nothing = Seen {
        wearer: 0,
        before: Millimetres(0),
        behind: Millimetres(0),
        lowest: back,
    };
    let known = with_edge(lengths, labels, label, nothing, v, on);
    let from = far_end(ends, on, v);
    look_onwards(
        degrees, sides, ends, lengths, labels, label, known, on, from, v, fuel,
    )
}

// What is told of the vertex that wears the label. On the way up the low end lies behind the edge `back`, on the way down the high end; a
// walk round a ring has come home, to a regular vertex.
fn told(degrees: &[u16], lengths: &[u32], walked: Look, back: Edge, up: bool) -> Option<FoundChain>
    ensures { as_found result ≡ told_in degrees.now lengths.now up back.0 (as_look walked) }
{
    let at = walked.at;
    let known = walked.known;
    let name = known.lowest;
    let before = known.before;
    let behind = known.behind;
    if known.wearer == 0 {
        return None;
    }
    let wearer = Vertex(known.wearer - 1);
    if degree_of(degrees, at) == 2 {
        return Some(FoundChain {
            name,
            wearer,
            low: Millimetres(0),
            high: add_lengths(before, behind),
        });
    }
    let near = add_lengths(length_of(lengths, back), before);
    if up {
        return Some(FoundChain {
            name,
            wearer,
            low: near,
            high: behind,
        });
    }
    Some(FoundChain {
        name,
        wearer,
        low: behind,
        high: near,
    })
}

// Of the two edges of v on its chain the one towards the high end, or the one towards the low end.
fn edge_towards(sides: &[u16], v: Vertex, up: bool) -> Edge
    ensures { result.0 ≡ edge_towards sides.now up v.0 }
{
    if up {
        high_edge(sides, v)
    } else {
        low_edge(sides, v)
    }
}

// The chain or ring of which v has the lowest label is looked through upwards, or that of which v has the highest downwards.
pub fn look_through(
    degrees: &[u16],
    sides: &[u16],
    ends: &[u16],
    lengths: &[u32],
    labels: &[u32],
    label: Label,
    v: Vertex,
    up: bool,
    fuel: u16,
) -> Option<FoundChain>
    ensures { as_found result
        ≡ look_through_in degrees.now sides.now ends.now lengths.now labels.now fuel label.0 up v.0 }
{
    let on = edge_towards(sides, v, up);
    let back = edge_towards(sides, v, !up);
    let walked = look_along(
        degrees, sides, ends, lengths, labels, label, v, on, back, fuel,
    );
    told(degrees, lengths, walked, back, up)
}
