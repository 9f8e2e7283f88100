// The distance between two vertices of a register, as C asks for it and is answered. A number above the largest vertex is never landed, which is 5.
ghost use Rattle.std.specs.Prelude.{◌≡◌, List, ℕ};
ghost use Rattle.model.specs.Register.{Register};
ghost use Rattle.model.specs.FromC.{returns_reply};
ghost use Rattle.counters.specs.Answers.{as_counts};
ghost use Rattle.tables.specs.Meaning.{tables};
ghost use Rattle.questions.specs.Meaning.{measured_reply};
ghost use Rattle.questions.specs.Measure.{Measurable, measure_in};
ghost use Rattle.pnl.specs.FromC.{returned};

use counters::counts::Counts;
use counters::numbers::{Millimetres, Vertex};
use counters::refusals::Refusal;
use counters::sizes::{ENDS, SIDES, VERTICES};
use pnl::answers::{answer_numbers, refused};
use questions::measure::measure_in;

// The arrays are the scratch of the search, and end with it.
fn distance_in(
    ends: &[u16],
    lengths: &[u32],
    counts: Counts,
    from: Vertex,
    to: Vertex,
) -> Result<Option<Millimetres>, Refusal>
    requires { Measurable ends.now lengths.now (as_counts counts) }
    ensures { (degrees sides volumes labels : List ℕ) → measured_reply result
        ≡ measure_in (tables degrees sides ends.now lengths.now volumes labels) (as_counts counts) from.0 to.0 }
{
    let mut heads = [0u16; VERTICES];
    let mut heap = [0u16; SIDES];
    let mut next = [0u16; ENDS];
    let mut distances = [0u32; VERTICES];
    let mut keys = [0u32; VERTICES];
    measure_in(
        ends,
        lengths,
        counts,
        &mut heads,
        &mut heap,
        &mut next,
        &mut distances,
        &mut keys,
        from,
        to,
    )
}

pub fn measure_checked(
    ends: &[u16],
    lengths: &[u32],
    counts: Counts,
    from: u32,
    to: u32,
) -> Result<Option<Millimetres>, Refusal>
    requires { Measurable ends.now lengths.now (as_counts counts) }
    ensures { (degrees sides volumes labels : List ℕ) → measured_reply result
        ≡ measure_in (tables degrees sides ends.now lengths.now volumes labels) (as_counts counts) from to }
{
    let Some(start) = Vertex::new(from) else {
        return Err(Refusal::NotLanded);
    };
    let Some(goal) = Vertex::new(to) else {
        return Err(Refusal::NotLanded);
    };
    distance_in(ends, lengths, counts, start, goal)
}

// What stands for a distance where there is no way.
const NOT_JOINED: u32 = 4294967295;

pub fn answer_distance(answer: &mut [u8], measured: Result<Option<Millimetres>, Refusal>) -> i32
    ensures { (register : Register) → returned answer.new result ≡ returns_reply register answer.old (measured_reply measured) }
{
    match measured {
        Ok(Some(millimetres)) => answer_numbers(answer, &[millimetres.0]),
        Ok(None) => answer_numbers(answer, &[NOT_JOINED]),
        Err(refusal) => refused(refusal),
    }
}
