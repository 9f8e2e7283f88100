// The walk along chains that lowers distances. Where it goes on it reads off the incidence lists, and tests what it reads.
ghost use Rattle.relaxing.specs.Distances.{Bounded, Keeps};

use crate::heap::offer;
use counters::numbers::Vertex;
use relaxing::relax::NO_VERTEX;
use tables::access::of;

// Tries the edge of end j - 2 from that end's vertex on: the far vertex may get a lesser distance, where that is below best. The answer
// is the far vertex where it does.
fn relax_end(
    ends: &[u16],
    lengths: &[u32],
    edges: u16,
    distances: &mut [u32],
    j: u16,
    best: u32,
) -> u16
    requires { Bounded ends.now lengths.now edges distances.old }
    ensures { Keeps ends.now lengths.now edges distances.old distances.new }
{
    let half = j / 2;
    if half == 0 {
        return NO_VERTEX;
    }
    if edges < half {
        return NO_VERTEX;
    }
    let i = j as usize;
    let near = ends[i - 2];
    let sum = distances[near as usize] + lengths[(half - 1) as usize];
    if best <= sum {
        return NO_VERTEX;
    }
    // The ends of edge half - 1 are 2 half - 2 and 2 half - 1: their sum less this end, j - 2, is the other.
    let far = ends[4 * (half as usize) - 1 - i];
    if distances[far as usize] <= sum {
        return NO_VERTEX;
    }
    distances[far as usize] = sum;
    far
}

// Of a list of one or two entries, the one that is not back, or 0: behind is what comes after back. It is read beside the list's front
// and not after it, so that a step waits less.
fn other_end(front: u16, behind: u16, back: u16) -> u16 {
    if front == back { behind } else { front }
}

// Where a walk along a chain goes on: the list entry of the next edge end, or 0 where it stops. A branch that it stops at is to be queued.
#[derive(Clone, Copy)]
pub struct Onward {
    pub entry: u16,
    pub branch: u16,
}

// Tries one edge of a chain, from end j - 2 on; its other end has the entry back. At a leaf the other end is none, which stops the walk.
fn advance(
    ends: &[u16],
    lengths: &[u32],
    edges: u16,
    heads: &[u16],
    next: &[u16],
    distances: &mut [u32],
    from: u16,
    j: u16,
) -> Onward
    requires { Bounded ends.now lengths.now edges distances.old }
    ensures { Keeps ends.now lengths.now edges distances.old distances.new }
{
    let best = of(distances, from);
    let v = relax_end(ends, lengths, edges, distances, j, best);
    if v == NO_VERTEX {
        return Onward {
            entry: 0,
            branch: NO_VERTEX,
        };
    }
    let back = j ^ 1;
    let behind = of(next, back);
    let front = of(heads, v);
    let second = of(next, front);
    if of(next, second) != 0 {
        return Onward {
            entry: 0,
            branch: v,
        };
    }
    Onward {
        entry: other_end(front, behind, back),
        branch: NO_VERTEX,
    }
}

// Follows the chains of two edge ends while they lower distances, and queues the branches that they stop at. Two at a time:
// a step waits for its memory reads, and those of two chains overlap. The answer is the heap's size.
pub fn follow_both(
    ends: &[u16],
    lengths: &[u32],
    edges: u16,
    heads: &[u16],
    heap: &mut [u16],
    next: &[u16],
    distances: &mut [u32],
    keys: &mut [u32],
    from: u16,
    first: u16,
    second: u16,
    queued: u16,
) -> u16
    requires { Bounded ends.now lengths.now edges distances.old }
    ensures { Keeps ends.now lengths.now edges distances.old distances.new }
{
    let mut one = first;
    let mut two = second;
    let mut size = queued;
    // No chain is longer, since it passes a vertex once.
    for _ in 0..Vertex::COUNT {
        let s = advance(ends, lengths, edges, heads, next, distances, from, one);
        let t = advance(ends, lengths, edges, heads, next, distances, from, two);
        size = offer(heap, keys, distances, s.branch, size);
        size = offer(heap, keys, distances, t.branch, size);
        one = s.entry;
        two = t.entry;
        if one == 0 && two == 0 {
            break;
        }
    }
    size
}
