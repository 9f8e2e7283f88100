// For the tests alone: the search, and a round behind it that lowers what it can. That it finds nothing to lower is not proved, since the answer
// does not rest on it; tests/confirming shows it on full-size houses.
#![tactic(auto)]

ghost use Rattle.std.specs.Prelude.{◌≤◌, ◌<◌, length};
ghost use Rattle.model.specs.Basics.{max_vertices};
ghost use Rattle.relaxing.specs.Distances.{Searchable};
ghost use Rattle.confirming.specs.Rounds.{FirstRound};

use relaxing::relax::relax_all;
use search::dijkstra::dijkstra;
use search::shortest::start;
use tables::access::of;

// How many distances the first round over all edges lowers. With 0 the search had settled them, and the round that confirms is the only one.
#[unsafe(no_mangle)]
pub extern "C" fn confirming_changes(
    ends: &[u16],
    lengths: &[u32],
    edges: u16,
    from: u16,
    goal: u16,
    heads: &mut [u16],
    heap: &mut [u16],
    next: &mut [u16],
    distances: &mut [u32],
    keys: &mut [u32],
) -> u16
    requires { Searchable ends.now lengths.now edges × ((from < max_vertices) × ((goal < max_vertices) × (max_vertices ≤ length distances.old))) }
    ensures { FirstRound ends.now lengths.now edges goal from distances.new result }
{
    start(distances, goal);
    dijkstra(
        ends, lengths, edges, heads, heap, next, distances, keys, goal, from,
    );
    let best = of(distances, from);
    relax_all(ends, lengths, distances, edges, best)
}
