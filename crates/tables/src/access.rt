// Reads and writes that test their index, and sums that stop at the largest number of their type. What is built on them needs no
// bound on an index or on what a table holds.
ghost use Rattle.std.specs.Prelude.{◌≡◌, get_or, set};
ghost use Rattle.tables.specs.Steps.{more16, more32, sum32};

// What a table holds: a number of 16 or of 32 bits.
pub trait Number: Copy {
    ghost zero: { Self };

    fn zero() -> Self
        ensures { result ≡ zero };
}

impl Number for u16 {
    ghost zero = { 0 };

    fn zero() -> u16 {
        0
    }
}

impl Number for u32 {
    ghost zero = { 0 };

    fn zero() -> u32 {
        0
    }
}

// The element at i, and 0 past the end.
pub fn at<T: Number>(xs: &[T], i: usize) -> T
    ensures { result ≡ get_or xs.now i T.zero }
{
    xs.get(i).copied().unwrap_or(T::zero())
}

// The same by a 16-bit index.
pub fn of<T: Number>(xs: &[T], i: u16) -> T
    ensures { result ≡ get_or xs.now i T.zero }
{
    at(xs, usize::from(i))
}

// The element at i becomes x; past the end nothing changes.
pub fn put<T: Number>(xs: &mut [T], i: usize, x: T)
    ensures { xs.new ≡ set xs.old i x }
{
    if i < xs.len() {
        xs[i] = x;
    }
}

// One more, or the largest number of the type. Each has a name for its clause: callers' proofs then need no law of `min`.
#[tactic(auto, unfolding(crate::specs::Steps::more16))]
pub fn one_more16(n: u16) -> u16
    ensures { result ≡ more16 n }
{
    n.saturating_add(1)
}

#[tactic(auto, unfolding(crate::specs::Steps::more32))]
pub fn one_more32(n: u32) -> u32
    ensures { result ≡ more32 n }
{
    n.saturating_add(1)
}

#[tactic(auto, unfolding(crate::specs::Steps::sum32))]
pub fn add32(m: u32, n: u32) -> u32
    ensures { result ≡ sum32 m n }
{
    m.saturating_add(n)
}
