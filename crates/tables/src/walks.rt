// Walks along a chain (document 01: run), one regular vertex at a step.
ghost use Rattle.std.specs.Prelude.{◌≡◌, ◌*◌, get_or};
ghost use Rattle.tables.specs.Steps.{far_in, turn_in};
ghost use Rattle.tables.specs.Walks.{met, lockstep_in};

use crate::kinds::{degree_of, low_edge};
use crate::steps::{far_end, turn_at};
use counters::numbers::{Edge, Vertex};

// A walker stands at a vertex, which it reached by an edge.
#[derive(Clone, Copy)]
pub struct Walker {
    pub edge: Edge,
    pub at: Vertex,
}

// Where two walks in lockstep stand when one has come to a singular vertex, and the steps of each.
#[derive(Clone, Copy)]
pub struct Meeting {
    pub first: Walker,
    pub second: Walker,
    pub steps: u16,
}

// A walker that has left the leaf v by its only edge.
pub fn leave_leaf(sides: &[u16], ends: &[u16], v: Vertex) -> Walker
    ensures { (result.edge.0 ≡ get_or sides.now (2 * v.0) 0)
        × (result.at.0 ≡ far_in ends.now result.edge.0 v.0) }
{
    let d = low_edge(sides, v);
    Walker {
        edge: d,
        at: far_end(ends, d, v),
    }
}

// Over the regular vertex at which the walker stands.
pub fn step_over(sides: &[u16], ends: &[u16], w: Walker) -> Walker
    ensures { (result.edge.0 ≡ turn_in sides.now w.edge.0 w.at.0)
        × (result.at.0 ≡ far_in ends.now result.edge.0 w.at.0) }
{
    let d = turn_at(sides, w.edge, w.at);
    Walker {
        edge: d,
        at: far_end(ends, d, w.at),
    }
}

// The two take turns until one stands at a singular vertex: the cost is that of the shorter walk. A walk that left a leaf comes to one
// (theorem 1), and the fuel, the number of edges, is enough for it.
pub fn walk_lockstep(
    degrees: &[u16],
    sides: &[u16],
    ends: &[u16],
    first: Walker,
    second: Walker,
    fuel: u16,
) -> Meeting
    ensures { met result.first.at.0 result.second.at.0 result.steps
        ≡ lockstep_in degrees.now sides.now ends.now fuel
        first.edge.0 first.at.0 second.edge.0 second.at.0 }
{
    let mut v = first;
    let mut w = second;
    for steps in 0..fuel {
        if degree_of(degrees, v.at) != 2 || degree_of(degrees, w.at) != 2 {
            return Meeting {
                first: v,
                second: w,
                steps,
            };
        }
        v = step_over(sides, ends, v);
        w = step_over(sides, ends, w);
    }
    Meeting {
        first: v,
        second: w,
        steps: fuel,
    }
}
