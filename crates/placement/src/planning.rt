// What is done for an edge, planned by reading alone; and the edge placed as planned.
ghost use Rattle.std.specs.Prelude.{◌≡◌};
ghost use Rattle.placement.specs.Placing.{placed};
ghost use Rattle.placement.specs.Planning.{plan_for, planned_in};

use crate::placing::{Work, place_merged, place_open};
use counters::numbers::{Edge, Vertex};
use joining::merging::{Merger, merger_of};
use labels::changes::ChainChange;
use parting::splitting::{Rounds, rounds_for};

// What is done by the case, and what the tables say to it: of the chains that are merged, or of what lies round about the vertices that are
// split. All are fields, though work needs but one of the two: of an enum the compiler would keep copies in memory.
#[derive(Clone, Copy)]
pub struct Plan {
    pub work: Work,
    pub merger: Merger,
    pub rounds: Rounds,
}

// The plan for an edge between a and b. Nothing is written.
pub fn plan_work(
    work: Work,
    degrees: &[u16],
    sides: &[u16],
    ends: &[u16],
    a: Vertex,
    b: Vertex,
    fuel: u16,
    rings: bool,
) -> Plan
    ensures { result ≡ plan_for work degrees.now sides.now ends.now a.0 b.0 fuel rings }
{
    match work {
        Work::Merge => {
            let merger = merger_of(degrees, sides, ends, a, b, fuel);
            let rounds = Rounds::none();
            Plan {
                work,
                merger,
                rounds,
            }
        }
        Work::Open(splits, extension) => {
            let merger = Merger {
                ring: false,
                keeper: None,
            };
            let rounds = rounds_for(splits, degrees, sides, ends, a, b, fuel, rings);
            Plan {
                work,
                merger,
                rounds,
            }
        }
    }
}

// Edge e between a and b is placed as planned.
pub fn place_edge(
    plan: Plan,
    degrees: &mut [u16],
    sides: &mut [u16],
    ends: &[u16],
    labels: &mut [u32],
    blocks: u16,
    a: Vertex,
    b: Vertex,
    e: Edge,
) -> ChainChange
    ensures { placed degrees.new sides.new labels.new result.blocks result.relabellings result.ring
        ≡ planned_in plan degrees.old sides.old ends.now labels.old blocks a.0 b.0 e.0 }
{
    let work = plan.work;
    let merger = plan.merger;
    let rounds = plan.rounds;
    match work {
        Work::Merge => place_merged(merger, degrees, sides, ends, labels, blocks, a, b, e),
        Work::Open(splits, extension) => place_open(
            splits, rounds, extension, degrees, sides, ends, labels, blocks, a, b, e,
        ),
    }
}
