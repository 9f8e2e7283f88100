// Reads and writes by kind: a table of labels gives and takes labels, one of lengths lengths, one of volumes volumes, the ends vertices,
// the sides edges. The lent tables are slices of numbers; here and in steps a number that is read from one gets its kind.
ghost use Rattle.std.specs.Prelude.{◌≡◌, ◌+◌, ◌*◌, get_or, set};
ghost use Rattle.tables.specs.Steps.{set_pair};

use crate::access::{at, of, put};
use counters::numbers::{Edge, Label, Millilitres, Millimetres, Vertex};

pub fn degree_of(degrees: &[u16], v: Vertex) -> u16
    ensures { result ≡ get_or degrees.now v.0 0 }
{
    of(degrees, v.0)
}

// 0 where v has none.
pub fn label_of(labels: &[u32], v: Vertex) -> Label
    ensures { result.0 ≡ get_or labels.now v.0 0 }
{
    Label(of(labels, v.0))
}

pub fn put_label(labels: &mut [u32], v: Vertex, label: Label)
    ensures { labels.new ≡ set labels.old v.0 label.0 }
{
    put(labels, v.0 as usize, label.0);
}

pub fn length_of(lengths: &[u32], e: Edge) -> Millimetres
    ensures { result.0 ≡ get_or lengths.now e.0 0 }
{
    Millimetres(of(lengths, e.0))
}

pub fn put_length(lengths: &mut [u32], e: Edge, length: Millimetres)
    ensures { lengths.new ≡ set lengths.old e.0 length.0 }
{
    put(lengths, e.0 as usize, length.0);
}

// `Millilitres::UNKNOWN` where that of e is.
pub fn volume_of(volumes: &[u32], e: Edge) -> Millilitres
    ensures { result.0 ≡ get_or volumes.now e.0 0 }
{
    Millilitres(of(volumes, e.0))
}

pub fn put_volume(volumes: &mut [u32], e: Edge, volume: Millilitres)
    ensures { volumes.new ≡ set volumes.old e.0 volume.0 }
{
    put(volumes, e.0 as usize, volume.0);
}

// The two ends of an edge.
pub fn first_end(ends: &[u16], e: Edge) -> Vertex
    ensures { result.0 ≡ get_or ends.now (2 * e.0) 0 }
{
    Vertex(at(ends, 2 * (e.0 as usize)))
}

pub fn second_end(ends: &[u16], e: Edge) -> Vertex
    ensures { result.0 ≡ get_or ends.now (2 * e.0 + 1) 0 }
{
    Vertex(at(ends, 2 * (e.0 as usize) + 1))
}

// The edge on the low side of vertex v: the only edge of a leaf.
pub fn low_edge(sides: &[u16], v: Vertex) -> Edge
    ensures { result.0 ≡ get_or sides.now (2 * v.0) 0 }
{
    Edge(at(sides, 2 * (v.0 as usize)))
}

pub fn high_edge(sides: &[u16], v: Vertex) -> Edge
    ensures { result.0 ≡ get_or sides.now (2 * v.0 + 1) 0 }
{
    Edge(at(sides, 2 * (v.0 as usize) + 1))
}

// The two elements of i.
fn put_pair(narrow: &mut [u16], i: u16, a: u16, b: u16)
    ensures { narrow.new ≡ set_pair narrow.old i a b }
{
    let at = 2 * (i as usize);
    put(narrow, at, a);
    put(narrow, at + 1, b);
}

pub fn put_ends(ends: &mut [u16], e: Edge, a: Vertex, b: Vertex)
    ensures { ends.new ≡ set_pair ends.old e.0 a.0 b.0 }
{
    put_pair(ends, e.0, a.0, b.0);
}

pub fn put_sides(sides: &mut [u16], v: Vertex, low: Edge, high: Edge)
    ensures { sides.new ≡ set_pair sides.old v.0 low.0 high.0 }
{
    put_pair(sides, v.0, low.0, high.0);
}
