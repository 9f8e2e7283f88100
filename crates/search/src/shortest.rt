// The least length of a way between two vertices.
ghost use Rattle.std.specs.Prelude.{◌≡◌, List, ℕ, ◌≤◌, ◌<◌, length};
ghost use Rattle.model.specs.Basics.{max_vertices};
ghost use Rattle.model.specs.Tables.{stored_edges};
ghost use Rattle.model.specs.Distance.{joined, not_joined, distance};
ghost use Rattle.tables.specs.Meaning.{tables};
ghost use Rattle.search.specs.Meaning.{as_distance};
ghost use Rattle.relaxing.specs.Distances.{Searchable, unreached};
ghost use Rattle.search.specs.Search.{Started};

use crate::dijkstra::dijkstra;
use counters::numbers::Millimetres;
use relaxing::relax::settle;
use tables::access::{of, put};

// Above every distance, which is at most 409,600,000; with an edge's length more it still fits 32 bits.
const UNREACHED: u32 = 4000000000;

// No vertex is reached but the goal.
pub fn start(distances: &mut [u32], goal: u16)
    requires { goal < length distances.old }
    ensures { Started distances.new goal }
{
    distances.fill(UNREACHED);
    put(distances, goal as usize, 0);
}

// The answer for a settled distance: none where there is no way.
fn answer_of(distance: u32) -> Option<Millimetres>
    ensures { (distance < unreached → as_distance result ≡ joined distance) × (unreached ≤ distance → as_distance result ≡ not_joined) }
{
    if distance < UNREACHED {
        Some(Millimetres(distance))
    } else {
        None
    }
}

// The distance between two vertices, or none where there is no way. The five scratch tables are all 0 at the start, or the search is slower; they end in any state.
pub fn search(
    ends: &[u16],
    lengths: &[u32],
    edges: u16,
    from: u16,
    goal: u16,
    heads: &mut [u16],
    heap: &mut [u16],
    next: &mut [u16],
    distances: &mut [u32],
    keys: &mut [u32],
) -> Option<Millimetres>
    requires { Searchable ends.now lengths.now edges × ((from < max_vertices) × ((goal < max_vertices) × (max_vertices ≤ length distances.old))) }
    ensures { (degrees sides volumes labels : List ℕ) → as_distance result
        ≡ distance (stored_edges (tables degrees sides ends.now lengths.now volumes labels) edges) from goal }
{
    start(distances, goal);
    dijkstra(
        ends, lengths, edges, heads, heap, next, distances, keys, goal, from,
    );
    settle(ends, lengths, distances, edges, from);
    answer_of(of(distances, from))
}
