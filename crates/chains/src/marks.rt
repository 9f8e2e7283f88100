// Marks on the edges that a walk has passed.
ghost use Rattle.std.specs.Prelude.{◌≡◌, set};
ghost use Rattle.chains.specs.Chains.{marked, mark_in, walk_end, walk_in, walk_volume_in};

use crate::volumes::volume_onto;
use crate::walks::goes_on;
use counters::numbers::{Edge, Millilitres, Millimetres, Vertex};
use tables::access::put;
use tables::kinds::length_of;
use tables::steps::add_lengths;
use tables::walks::{Walker, step_over};

const MARK: u16 = 1;

// Where a walk ends, how many regular vertices it passes, the lengths of the edges behind them added up, their volumes onto what was known
// before, and the least of its home and those vertices.
#[derive(Clone, Copy)]
pub struct WalkEnd {
    pub at: Vertex,
    pub inner: u16,
    pub length: Millimetres,
    pub volume: Millilitres,
    pub lowest: Vertex,
}

// The element of edge d is a mark.
fn put_mark(marks: &mut [u16], d: Edge)
    ensures { marks.new ≡ set marks.old d.0 1 }
{
    put(marks, d.0 as usize, MARK);
}

// Marks the edges behind the regular vertices on the way of one who comes along an edge to vertex `from`; the answer is where it ends.
pub fn mark_onwards(
    degrees: &[u16],
    sides: &[u16],
    ends: &[u16],
    marks: &mut [u16],
    edge: Edge,
    from: Vertex,
    home: Vertex,
    fuel: u16,
) -> Vertex
    ensures { marked marks.new result.0
        ≡ mark_in degrees.now sides.now ends.now home.0 fuel marks.old edge.0 from.0 }
{
    let mut w = Walker { edge, at: from };
    for _ in 0..fuel {
        if !goes_on(degrees, home, w.at) {
            break;
        }
        w = step_over(sides, ends, w);
        put_mark(marks, w.edge);
    }
    Vertex(w.at.0)
}

// The same, and all that a row is made of.
pub fn walk_marking(
    degrees: &[u16],
    sides: &[u16],
    ends: &[u16],
    lengths: &[u32],
    volumes: &[u32],
    marks: &mut [u16],
    edge: Edge,
    from: Vertex,
    home: Vertex,
    known: Millilitres,
    fuel: u16,
) -> WalkEnd
    ensures { (walk_end result.at.0 result.inner result.length.0 result.lowest.0
        ≡ walk_in degrees.now sides.now ends.now lengths.now home.0 fuel edge.0 from.0)
        × (result.volume.0
        ≡ walk_volume_in degrees.now sides.now ends.now volumes.now home.0 fuel known.0 edge.0 from.0)
        × (marked marks.new result.at.0
        ≡ mark_in degrees.now sides.now ends.now home.0 fuel marks.old edge.0 from.0) }
{
    let mut w = Walker { edge, at: from };
    let mut inner: u16 = 0;
    let mut length = Millimetres(0);
    let mut volume = known;
    let mut lowest = home;
    for _ in 0..fuel {
        if !goes_on(degrees, home, w.at) {
            break;
        }
        lowest = w.at.min(lowest);
        w = step_over(sides, ends, w);
        put_mark(marks, w.edge);
        length = add_lengths(length, length_of(lengths, w.edge));
        volume = volume_onto(volumes, volume, w.edge);
        inner += 1;
    }
    WalkEnd {
        at: Vertex(w.at.0),
        inner,
        length,
        volume,
        lowest,
    }
}
