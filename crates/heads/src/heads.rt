// The heads of eight houses.
ghost use Rattle.std.specs.Prelude.{◌≡◌, ◌<◌, get_or, set};
ghost use Rattle.model.specs.Tables.{no_counts};
ghost use Rattle.counters.specs.Answers.{as_counts};
ghost use Rattle.nursery.specs.Licence.{houses};
ghost use Rattle.nursery.specs.Nursery.{no_houses};
ghost use Rattle.heads.specs.Meaning.{as_heads, as_removals};

use counters::counts::Counts;
use counters::refusals::Refusal;

// Each house has its head, and its count of removals beside it (document 02, S-11).
#[derive(Clone, Copy)]
pub struct Heads {
    pub counts: [Counts; 8],
    pub removals: [u32; 8],
}

impl Heads {
    // The heads of eight empty houses.
    pub fn none() -> Heads
        ensures { (as_heads result ≡ no_houses.heads) × (as_removals result ≡ no_houses.removals) }
    {
        Heads {
            counts: [Counts::none(); 8],
            removals: [0; 8],
        }
    }
}

// The head of one house.
pub fn head_of(heads: Heads, h: usize) -> Counts
    requires { h < houses }
    ensures { as_counts result ≡ get_or (as_heads heads) h no_counts }
{
    heads.counts[h]
}

// Its count of removals.
pub fn removals_of(heads: Heads, h: usize) -> u32
    requires { h < houses }
    ensures { result ≡ get_or (as_removals heads) h 0 }
{
    heads.removals[h]
}

// The head of house i, or another one if i is h.
fn head_or(heads: Heads, i: usize, h: usize, own: Counts) -> Counts
    requires { i < houses }
    ensures { as_counts result ≡ get_or (set (as_heads heads) h (as_counts own)) i no_counts }
{
    if i == h { own } else { head_of(heads, i) }
}

// The heads with another one for this house.
pub fn with_head(heads: Heads, h: usize, own: Counts) -> Heads
    ensures { (as_heads result ≡ set (as_heads heads) h (as_counts own)) × (as_removals result ≡ as_removals heads) }
{
    let removals = heads.removals;
    Heads {
        counts: [
            head_or(heads, 0, h, own),
            head_or(heads, 1, h, own),
            head_or(heads, 2, h, own),
            head_or(heads, 3, h, own),
            head_or(heads, 4, h, own),
            head_or(heads, 5, h, own),
            head_or(heads, 6, h, own),
            head_or(heads, 7, h, own),
        ],
        removals,
    }
}

// The count of removals of house i, or another one if i is h.
fn removals_or(heads: Heads, i: usize, h: usize, count: u32) -> u32
    requires { i < houses }
    ensures { result ≡ get_or (set (as_removals heads) h count) i 0 }
{
    if i == h { count } else { removals_of(heads, i) }
}

// The heads with another count of removals for this house.
pub fn with_removals(heads: Heads, h: usize, count: u32) -> Heads
    ensures { (as_heads result ≡ as_heads heads) × (as_removals result ≡ set (as_removals heads) h count) }
{
    let counts = heads.counts;
    Heads {
        counts,
        removals: [
            removals_or(heads, 0, h, count),
            removals_or(heads, 1, h, count),
            removals_or(heads, 2, h, count),
            removals_or(heads, 3, h, count),
            removals_or(heads, 4, h, count),
            removals_or(heads, 5, h, count),
            removals_or(heads, 6, h, count),
            removals_or(heads, 7, h, count),
        ],
    }
}

// The heads as a call leaves them, and what it answers.
#[derive(Clone, Copy)]
pub struct Updated<T> {
    pub heads: Heads,
    pub answer: Result<T, Refusal>,
}
