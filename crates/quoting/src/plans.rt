// How many vertices a plan relabels.
ghost use Rattle.std.specs.Prelude.{◌≡◌};
ghost use Rattle.counting.specs.Counting.{estimated};
ghost use Rattle.quoting.specs.Counted.{planned_count};

use counting::counts::{Estimate, count_merged, count_split};
use placement::placing::Work;
use placement::planning::Plan;

// Whether the plan closes a ring, and how many vertices it relabels. Nothing is written.
pub fn count_planned(
    plan: Plan,
    degrees: &[u16],
    sides: &[u16],
    ends: &[u16],
    labels: &[u32],
    fuel: u16,
) -> Estimate
    ensures { estimated result.ring result.count
        ≡ planned_count plan degrees.now sides.now ends.now labels.now fuel }
{
    let work = plan.work;
    let merger = plan.merger;
    let rounds = plan.rounds;
    match work {
        Work::Merge => count_merged(merger, degrees, sides, ends, labels, fuel),
        Work::Open(splits, extension) => {
            let count = count_split(rounds);
            Estimate { ring: false, count }
        }
    }
}
