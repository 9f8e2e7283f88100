// The incidence lists: the edge ends at each vertex. Edge end k is 2 e or 2 e + 1; a list holds k + 2, so that half of it is e + 1, and 0
// is its end. The lists are a hint: what they hold is tested where it is used, and nothing is proved of it.
ghost use Rattle.std.specs.Prelude.{ℕ, ◌≤◌, ◌<◌, length};
ghost use Rattle.model.specs.Basics.{max_edges};
ghost use Rattle.search.specs.Search.{Linkable};

use crate::sampling::NO_LIMIT;
use counters::sizes::MAX_EDGES;
use tables::access::{of, put};

// An entry comes to the front of the list of vertex v. The answer is what was there.
fn put_front(heads: &mut [u16], v: u16, entry: u16) -> u16
    requires { v < length heads.old }
{
    let front = heads[v as usize];
    heads[v as usize] = entry;
    front
}

// Both ends of edge e come to the front of their lists. Both heads are written before next is: so the loop is quicker.
fn link(ends: &[u16], heads: &mut [u16], next: &mut [u16], e: usize)
    requires { Linkable ends.now (length heads.old) (length next.old) e }
{
    let k = 2 * e;
    let a = ends[k];
    let b = ends[k + 1];
    let second = put_front(heads, b, (k + 3) as u16);
    let first = put_front(heads, a, (k + 2) as u16);
    next[k + 3] = second;
    next[k + 2] = first;
}

// The edges below 4,095: for the ends of the last of 4,096 there is no room in next.
pub fn with_room(edges: u16) -> u16
    ensures { (result ≤ edges) × (result < max_edges) }
{
    if edges < MAX_EDGES {
        edges
    } else {
        MAX_EDGES - 1
    }
}

// The ends that find no room in next are linked first, as the last of their lists: the 0 that is read there is their end.
pub fn link_last(ends: &[u16], heads: &mut [u16], edges: u16) {
    if edges < MAX_EDGES {
        return;
    }
    let k = 2 * MAX_EDGES;
    put(heads, of(ends, k - 2) as usize, k);
    put(heads, of(ends, k - 1) as usize, k + 1);
}

// From the last edge down.
fn link_all(ends: &[u16], heads: &mut [u16], next: &mut [u16], edges: u16)
    requires { (e : ℕ) → e < edges → Linkable ends.now (length heads.old) (length next.old) e }
{
    for e in (0..edges as usize).rev() {
        link(ends, heads, next, e);
    }
}

// Links edge e, where its length is from low on and below the limit.
fn link_if(
    ends: &[u16],
    lengths: &[u32],
    heads: &mut [u16],
    next: &mut [u16],
    e: u16,
    low: u32,
    limit: u32,
)
    requires { (e < length lengths.now) × Linkable ends.now (length heads.old) (length next.old) e }
{
    let len = lengths[e as usize];
    if len < low {
        return;
    }
    if limit <= len {
        return;
    }
    link(ends, heads, next, e as usize);
}

// From the last edge down those with lengths from low on and below the limit.
fn link_some(
    ends: &[u16],
    lengths: &[u32],
    heads: &mut [u16],
    next: &mut [u16],
    edges: u16,
    low: u32,
    limit: u32,
)
    requires { (edges ≤ length lengths.now) × ((e : ℕ) → e < edges → Linkable ends.now (length heads.old) (length next.old) e) }
{
    for e in (0..edges).rev() {
        link_if(ends, lengths, heads, next, e, low, limit);
    }
}

// The same; where these are all edges, no length is read.
pub fn link_between(
    ends: &[u16],
    lengths: &[u32],
    heads: &mut [u16],
    next: &mut [u16],
    edges: u16,
    low: u32,
    limit: u32,
)
    requires { (edges ≤ length lengths.now) × ((e : ℕ) → e < edges → Linkable ends.now (length heads.old) (length next.old) e) }
{
    if low == 0 {
        if limit == NO_LIMIT {
            link_all(ends, heads, next, edges);
            return;
        }
    }
    link_some(ends, lengths, heads, next, edges, low, limit);
}
