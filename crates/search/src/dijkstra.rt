// Dijkstra's order over the chains, as a hint: the vertices with the least distances come first. But for the goal, and for what is queued
// again once the long edges are linked, neither leaves nor regular vertices are queued. What is proved is that the distances stay grounded,
// which they do in every order.
ghost use Rattle.std.specs.Prelude.{◌≤◌, ◌*◌, length};
ghost use Rattle.model.specs.Basics.{max_vertices, max_edges};
ghost use Rattle.relaxing.specs.Distances.{Bounded, Keeps};

use crate::following::follow_both;
use crate::heap::{pop, push, push_below};
use crate::incidence::{link_between, link_last, with_room};
use crate::sampling::{NO_LIMIT, first_limit};
use counters::numbers::Vertex;
use counters::sizes::{ENDS, MAX_EDGES, VERTICES};
use tables::access::of;

// Follows the chains from vertex v, two at a time. The answer is the heap's size.
fn scan(
    ends: &[u16],
    lengths: &[u32],
    edges: u16,
    heads: &[u16],
    heap: &mut [u16],
    next: &[u16],
    distances: &mut [u32],
    keys: &mut [u32],
    from: u16,
    v: u16,
    queued: u16,
) -> u16
    requires { Bounded ends.now lengths.now edges distances.old }
    ensures { Keeps ends.now lengths.now edges distances.old distances.new }
{
    let mut size = queued;
    let mut j = of(heads, v);
    // A vertex has at most one end of each edge.
    for _ in 0..MAX_EDGES {
        if j == 0 {
            break;
        }
        let k = of(next, j);
        size = follow_both(
            ends, lengths, edges, heads, heap, next, distances, keys, from, j, k, size,
        );
        j = of(next, k);
    }
    size
}

// Scans the queued vertices, the least distance first, until none is nearer than vertex from. The answer is the heap's size.
fn scan_all(
    ends: &[u16],
    lengths: &[u32],
    edges: u16,
    heads: &[u16],
    heap: &mut [u16],
    next: &[u16],
    distances: &mut [u32],
    keys: &mut [u32],
    from: u16,
    queued: u16,
) -> u16
    requires { Bounded ends.now lengths.now edges distances.old }
    ensures { Keeps ends.now lengths.now edges distances.old distances.new }
{
    let mut size = queued;
    // In this order a vertex is scanned once.
    for _ in 0..Vertex::COUNT {
        if size == 0 {
            break;
        }
        if of(distances, from) <= of(keys, 1) {
            break;
        }
        let v = of(heap, 1);
        size = pop(heap, keys, v, size);
        size = scan(
            ends, lengths, edges, heads, heap, next, distances, keys, from, v, size,
        );
    }
    size
}

// Queues every vertex that is nearer than vertex from, whose edges are to be tried again. The answer is the heap's size.
fn queue_again(
    heap: &mut [u16],
    keys: &mut [u32],
    distances: &[u32],
    from: u16,
    queued: u16,
) -> u16 {
    let best = of(distances, from);
    let mut size = queued;
    for v in 0..Vertex::COUNT {
        size = push_below(heap, keys, v, of(distances, v), best, size);
    }
    size
}

// Tries the edges below the limit; and then the others too, where the distance of vertex from is above it: a longer edge would matter.
fn scan_by_length(
    ends: &[u16],
    lengths: &[u32],
    edges: u16,
    heads: &mut [u16],
    heap: &mut [u16],
    next: &mut [u16],
    distances: &mut [u32],
    keys: &mut [u32],
    from: u16,
    first: u32,
    queued: u16,
)
    requires { Bounded ends.now lengths.now edges distances.old × ((max_vertices ≤ length heads.old) × (2 * max_edges ≤ length next.old)) }
    ensures { Keeps ends.now lengths.now edges distances.old distances.new }
{
    let linked = with_room(edges);
    let mut size = queued;
    for (low, limit) in [(0, first), (first, NO_LIMIT)] {
        link_between(ends, lengths, heads, next, linked, low, limit);
        size = scan_all(
            ends, lengths, edges, heads, heap, next, distances, keys, from, size,
        );
        if of(distances, from) <= limit {
            break;
        }
        size = queue_again(heap, keys, distances, from, size);
    }
}

// Tries edges in Dijkstra's order, from the goal on, where there is room for the lists.
pub fn dijkstra(
    ends: &[u16],
    lengths: &[u32],
    edges: u16,
    heads: &mut [u16],
    heap: &mut [u16],
    next: &mut [u16],
    distances: &mut [u32],
    keys: &mut [u32],
    goal: u16,
    from: u16,
)
    requires { Bounded ends.now lengths.now edges distances.old }
    ensures { Keeps ends.now lengths.now edges distances.old distances.new }
{
    if heads.len() < VERTICES {
        return;
    }
    if next.len() < ENDS {
        return;
    }
    link_last(ends, heads, edges);
    let queued = push(heap, keys, goal, 0, 0);
    let first = first_limit(ends, lengths, edges);
    scan_by_length(
        ends, lengths, edges, heads, heap, next, distances, keys, from, first, queued,
    );
}
