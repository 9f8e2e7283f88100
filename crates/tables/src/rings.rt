// Whether a regular vertex lies on a ring. Nothing is written.
ghost use Rattle.std.specs.Prelude.{◌≡◌, false, ◌||◌, eqb};
ghost use Rattle.tables.specs.Steps.{far_in};
ghost use Rattle.tables.specs.Rounds.{lower_in, back_in, round_in, ring_in};

use crate::kinds::{degree_of, high_edge, low_edge};
use crate::steps::far_end;
use crate::walks::{Walker, step_over};
use counters::numbers::{Edge, Vertex};

// What lies round about a vertex: no ring; or a ring, with so many other vertices. Shared: one of them is the vertex that was asked
// about beside it.
#[derive(Clone, Copy)]
pub enum Round {
    NoRing,
    Ring(u16),
    Shared(u16),
}

// The lower-numbered of the two edges of the regular vertex v.
fn lower_edge(sides: &[u16], v: Vertex) -> Edge
    ensures { result.0 ≡ lower_in sides.now v.0 }
{
    let low = low_edge(sides, v);
    let high = high_edge(sides, v);
    if low.0 < high.0 {
        return low;
    }
    high
}

// A walker that has left the regular vertex v by the lower-numbered of its edges.
pub fn leave_lower(sides: &[u16], ends: &[u16], v: Vertex) -> Walker
    ensures { (result.edge.0 ≡ lower_in sides.now v.0)
        × (result.at.0 ≡ far_in ends.now result.edge.0 v.0) }
{
    let d = lower_edge(sides, v);
    Walker {
        edge: d,
        at: far_end(ends, d, v),
    }
}

// w has been met before, or is met now.
fn meets(met: bool, at: Vertex, w: Vertex) -> bool
    ensures { result ≡ (met || eqb at.0 w.0) }
{
    if met {
        return true;
    }
    at.0 == w.0
}

// A walker is back after n steps.
fn back_after(n: u16, met: bool) -> Round
    ensures { result ≡ back_in n met }
{
    if met {
        return Round::Shared(n);
    }
    Round::Ring(n)
}

// Two walkers leave the regular vertex v, one each way, and take turns until one stands at a singular vertex (no ring: the cost is that
// of the nearer end) or the first is back at v. The fuel, the number of edges, is enough for every walk.
pub fn ring_at(
    degrees: &[u16],
    sides: &[u16],
    ends: &[u16],
    v: Vertex,
    w: Vertex,
    fuel: u16,
) -> Round
    ensures { result ≡ ring_in degrees.now sides.now ends.now v.0 w.0 fuel }
{
    let lower = leave_lower(sides, ends, v);
    let edge = lower.edge;
    let higher = step_over(sides, ends, Walker { edge, at: v });
    walk_round(degrees, sides, ends, lower, higher, v, w, fuel)
}

fn walk_round(
    degrees: &[u16],
    sides: &[u16],
    ends: &[u16],
    first: Walker,
    second: Walker,
    v: Vertex,
    w: Vertex,
    fuel: u16,
) -> Round
    ensures { result ≡ round_in degrees.now sides.now ends.now v.0 w.0 fuel 0 false
        first.edge.0 first.at.0 second.edge.0 second.at.0 }
{
    let mut x = first;
    let mut y = second;
    let mut met = false;
    for steps in 0..fuel {
        if degree_of(degrees, x.at) != 2 || degree_of(degrees, y.at) != 2 {
            return Round::NoRing;
        }
        if x.at.0 == v.0 {
            return back_after(steps, met);
        }
        met = meets(met, x.at, w);
        x = step_over(sides, ends, x);
        y = step_over(sides, ends, y);
    }
    Round::NoRing
}
