// Edges that lower tentative distances, and rounds over all edges until none does.
ghost use Rattle.std.specs.Prelude.{◌≡◌, true, false, ℕ, ◌<◌};
ghost use Rattle.relaxing.specs.Distances.{Bounded, Within, Still, Relaxed, Round, Settled, Counted};

use tables::access::of;

// The answer of a step that lowered nothing.
pub const NO_VERTEX: u16 = 65535;

// Tries edge e: one of its ends may get a lesser distance from the other, where that is below best. The answer is the vertex whose
// distance is less now. An edge as long as best lowers nothing below it; for the others one test decides.
fn relax(ends: &[u16], lengths: &[u32], distances: &mut [u32], e: u16, best: u32) -> u16
    requires { Within ends.now lengths.now distances.old e }
    ensures { Relaxed ends.now lengths.now distances.old distances.new best e result }
{
    let len = lengths[e as usize];
    if best <= len {
        return NO_VERTEX;
    }
    let i = 2 * (e as usize);
    let a = ends[i];
    let b = ends[i + 1];
    let da = distances[a as usize];
    let db = distances[b as usize];
    let sum = da.min(db) + len;
    if best.min(da.max(db)) <= sum {
        return NO_VERTEX;
    }
    if da < db {
        distances[b as usize] = sum;
        return b;
    }
    distances[a as usize] = sum;
    a
}

// One more change, unless the step lowered nothing.
fn counted(changes: u16, r: u16) -> u16
    requires { changes < 65535 }
    ensures { Counted changes r result }
{
    if r == NO_VERTEX { changes } else { changes + 1 }
}

// A round over all edges. The answer is the number of changes.
pub fn relax_all(ends: &[u16], lengths: &[u32], distances: &mut [u32], edges: u16, best: u32) -> u16
    requires { Bounded ends.now lengths.now edges distances.old }
    ensures { Round ends.now lengths.now edges distances.old distances.new best result }
{
    let mut changes: u16 = 0;
    for e in 0..edges {
        let r = relax(ends, lengths, distances, e, best);
        changes = counted(changes, r);
    }
    changes
}

// Whether edge e may lower a distance to one below best: one test, since a test of the length alone would cost more than it spares.
fn may_lower(ends: &[u16], lengths: &[u32], distances: &[u32], e: u16, best: u32) -> bool
    requires { Within ends.now lengths.now distances.now e }
    ensures { result ≡ false → Still ends.now lengths.now distances.now best e }
{
    let len = lengths[e as usize];
    let i = 2 * (e as usize);
    let a = ends[i];
    let b = ends[i + 1];
    let da = distances[a as usize];
    let db = distances[b as usize];
    let sum = da.min(db) + len;
    let high = best.min(da.max(db));
    if high <= sum {
        return false;
    }
    true
}

// Whether no edge does. It writes nothing, so a round of it is quicker than one that can lower.
fn all_still(ends: &[u16], lengths: &[u32], distances: &[u32], edges: u16, best: u32) -> bool
    requires { Bounded ends.now lengths.now edges distances.now }
    ensures { result ≡ true → (e : ℕ) → e < edges → Still ends.now lengths.now distances.now best e }
{
    for e in 0..edges {
        if may_lower(ends, lengths, distances, e, best) {
            return false;
        }
    }
    true
}

// Rounds until nothing changes: then no edge lowers a distance below that of vertex from. After a search in the right order this is one
// round, which finds nothing to do. After any other it is more rounds and the same answer: that is why the order needs no proof.
// A round that lowers follows only where one may, so it always changes something; the test of that shows that the loop ends.
pub fn settle(ends: &[u16], lengths: &[u32], distances: &mut [u32], edges: u16, from: u16)
    requires { Bounded ends.now lengths.now edges distances.old }
    ensures { Settled ends.now lengths.now edges from distances.old distances.new }
{
    // It ends by what it finds, and not by a count.
    loop {
        let best = of(distances, from);
        if all_still(ends, lengths, distances, edges, best) {
            return;
        }
        let changes = relax_all(ends, lengths, distances, edges, best);
        if changes == 0 {
            return;
        }
    }
}
