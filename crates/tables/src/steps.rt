// Single steps on the tables.
ghost use Rattle.std.specs.Prelude.{◌≡◌};
ghost use Rattle.tables.specs.Steps.{far_in, turn_in, sum32, raise_in, raise_both_in};

use crate::access::{add32, at, one_more16, put};
use counters::numbers::{Edge, Millimetres, Vertex};

// The end of edge d that is not v.
pub fn far_end(ends: &[u16], d: Edge, v: Vertex) -> Vertex
    ensures { result.0 ≡ far_in ends.now d.0 v.0 }
{
    let i = 2 * (d.0 as usize);
    let first = at(ends, i);
    if first == v.0 {
        return Vertex(at(ends, i + 1));
    }
    Vertex(first)
}

// The edge at the regular vertex v that is not d.
pub fn turn_at(sides: &[u16], d: Edge, v: Vertex) -> Edge
    ensures { result.0 ≡ turn_in sides.now d.0 v.0 }
{
    let i = 2 * (v.0 as usize);
    let low = at(sides, i);
    if low == d.0 {
        return Edge(at(sides, i + 1));
    }
    Edge(low)
}

// A sum of lengths is a length: of so many edges, where `Millimetres::new` gives that of one.
pub fn add_lengths(m: Millimetres, n: Millimetres) -> Millimetres
    ensures { result.0 ≡ sum32 m.0 n.0 }
{
    Millimetres(add32(m.0, n.0))
}

// One more edge end at vertex v.
fn raise_degree(degrees: &mut [u16], v: Vertex)
    ensures { degrees.new ≡ raise_in degrees.old v.0 }
{
    let i = v.0 as usize;
    let degree = at(degrees, i);
    let raised = one_more16(degree);
    put(degrees, i, raised);
}

pub fn raise_both(degrees: &mut [u16], v: Vertex, w: Vertex)
    ensures { degrees.new ≡ raise_both_in degrees.old v.0 w.0 }
{
    raise_degree(degrees, v);
    raise_degree(degrees, w);
}
