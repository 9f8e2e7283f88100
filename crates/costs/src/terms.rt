// The terms of a quote, its pipe given as C gives it: a number above the largest vertex is never landed, which is 5 in whatever register.
ghost use Rattle.std.specs.Prelude.{◌≡◌, List, ℕ};
ghost use Rattle.model.specs.Basics.{max_edges};
ghost use Rattle.model.specs.Register.{Register, quote};
ghost use Rattle.model.specs.FromC.{returns_terms};
ghost use Rattle.model.specs.Notions.{HeldOf};
ghost use Rattle.counters.specs.Answers.{as_counts};
ghost use Rattle.counters.specs.Quotes.{as_terms};
ghost use Rattle.tables.specs.Meaning.{stored, tables};
ghost use Rattle.pnl.specs.FromC.{returned};

use counters::counts::Counts;
use counters::numbers::Vertex;
use counters::quotes::Offer;
use counters::refusals::Refusal;
use counters::sizes::MAX_EDGES;
use pnl::answers::{answer_numbers, refused};
use quoting::edges::quote_edge;

// A ring may stand.
pub fn terms_checked(
    degrees: &[u16],
    sides: &[u16],
    ends: &[u16],
    labels: &[u32],
    counts: Counts,
    first: u32,
    second: u32,
    length: u32,
    volume: u32,
) -> Result<Offer, Refusal>
    ensures { (lengths volumes : List ℕ) (register : Register)
        → HeldOf (stored (tables degrees.now sides.now ends.now lengths volumes labels.now) (as_counts counts)) register
        → as_terms result ≡ (quote max_edges register (record { first = first; second = second; len = length; volume = volume })).terms }
{
    let Some(one) = Vertex::new(first) else {
        return Err(Refusal::NotLanded);
    };
    let Some(other) = Vertex::new(second) else {
        return Err(Refusal::NotLanded);
    };
    let made = quote_edge(
        degrees, sides, ends, labels, counts, MAX_EDGES, one.0, other.0, length, volume, true,
    );
    made.terms
}

pub fn answer_terms(answer: &mut [u8], terms: Result<Offer, Refusal>) -> i32
    ensures { returned answer.new result ≡ returns_terms answer.old (as_terms terms) }
{
    match terms {
        Ok(offer) => { answer_numbers(answer, &[offer.case.number(), offer.relabellings]) }
        Err(refusal) => refused(refusal),
    }
}
