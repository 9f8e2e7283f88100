// The quote of an edge (document 02, S-5), made together with what its commit does. Nothing is written.
ghost use Rattle.std.specs.Prelude.{◌≡◌, Ok};
ghost use Rattle.model.specs.Register.{case_number};
ghost use Rattle.counters.specs.Answers.{as_counts};
ghost use Rattle.counters.specs.Quotes.{number_of_case, as_terms, as_quote};
ghost use Rattle.checking.specs.Meaning.{as_case};
ghost use Rattle.counting.specs.Counting.{estimated};
ghost use Rattle.placement.specs.Placing.{work_for};
ghost use Rattle.placement.specs.Planning.{plan_for};
ghost use Rattle.quoting.specs.Intents.{intent_in};
ghost use Rattle.quoting.specs.Quoting.{case_in, offer_in, work_count_in, quote_in};
ghost use Rattle.quoting.specs.Meaning.{as_intent};

use crate::plans::count_planned;
use checking::cases::{Case, case_of, class_of};
use checking::checks::{Checked, check_edge};
use counters::counts::Counts;
use counters::numbers::Vertex;
use counters::quotes::{Offer, Quote, QuotedCase};
use counters::refusals::Refusal;
use counting::counts::Estimate;
use placement::placing::work_of;
use placement::planning::{Plan, plan_work};
use tables::kinds::degree_of;

// What the commit of a quote does: the edge is placed as planned.
#[derive(Clone, Copy)]
pub struct Intent {
    pub edge: Checked,
    pub plan: Plan,
}

// A quote, with what its commit does, or its refusal.
#[derive(Clone, Copy)]
pub struct Prepared {
    pub quote: Quote,
    pub intent: Result<Intent, Refusal>,
}

// What is offered of an edge that no refusal holds of, with its plan.
#[derive(Clone, Copy)]
pub struct Offered {
    pub offer: Offer,
    pub plan: Plan,
}

fn quoted_case(case: Case) -> QuotedCase
    ensures { number_of_case result ≡ case_number (as_case case) }
{
    match case {
        Case::New => QuotedCase::NewRun,
        Case::ExtendFirst => QuotedCase::Extended,
        Case::ExtendSecond => QuotedCase::Extended,
        Case::Merge => QuotedCase::Merged,
        Case::SplitExtendFirst => QuotedCase::SplitExtended,
        Case::SplitExtendSecond => QuotedCase::SplitExtended,
        Case::SplitFirst => QuotedCase::Split,
        Case::SplitSecond => QuotedCase::Split,
        Case::SplitBoth => QuotedCase::SplitTwice,
    }
}

// "Its case (one of the six, or a ring) and re-hangings".
fn offer_of(case: Case, estimate: Estimate) -> Offer
    ensures { as_terms (Ok result) ≡ offer_in (as_case case) (estimated estimate.ring estimate.count) }
{
    let relabellings = estimate.count;
    if estimate.ring {
        return Offer {
            case: QuotedCase::Ring,
            relabellings,
        };
    }
    Offer {
        case: quoted_case(case),
        relabellings,
    }
}

// The edge between a and b, with so many edges before it. Only a quote needs the count: where it is left unused the compiler leaves out the
// walk that counts.
fn offer_edge(
    degrees: &[u16],
    sides: &[u16],
    ends: &[u16],
    labels: &[u32],
    edges: u16,
    a: Vertex,
    b: Vertex,
    rings: bool,
) -> Offered
    ensures { (as_terms (Ok result.offer) ≡ offer_in (case_in degrees.now a.0 b.0)
        (work_count_in (work_for (case_in degrees.now a.0 b.0) a.0 b.0)
        degrees.now sides.now ends.now labels.now a.0 b.0 edges rings))
        × (result.plan ≡ plan_for (work_for (case_in degrees.now a.0 b.0) a.0 b.0)
        degrees.now sides.now ends.now a.0 b.0 edges rings) }
{
    let case = case_of(degree_of(degrees, a), class_of(degree_of(degrees, b)));
    let work = work_of(case, a, b);
    let plan = plan_work(work, degrees, sides, ends, a, b, edges, rings);
    let estimate = count_planned(plan, degrees, sides, ends, labels, edges);
    let offer = offer_of(case, estimate);
    Offered { offer, plan }
}

// The pipe asked for, and the counts now.
fn quote_with(
    terms: Result<Offer, Refusal>,
    counts: Counts,
    first: u16,
    second: u16,
    length: u32,
    volume: u32,
) -> Quote
    ensures { as_quote result ≡ record {
      asked = record { first = first; second = second; len = length; volume = volume };
      terms = as_terms terms;
      vertices = counts.vertices;
      edges = counts.edges;
    } }
{
    Quote {
        first,
        second,
        length,
        volume,
        terms,
        vertices: counts.vertices,
        edges: counts.edges,
    }
}

// The quote and what its commit does, in a register that may not pass `limit` edges, decided together: nothing is walked twice.
pub fn prepare_edge(
    degrees: &[u16],
    sides: &[u16],
    ends: &[u16],
    labels: &[u32],
    counts: Counts,
    limit: u16,
    first: u16,
    second: u16,
    length: u32,
    volume: u32,
    rings: bool,
) -> Prepared
    ensures { (as_quote result.quote
        ≡ quote_in degrees.now sides.now ends.now labels.now (as_counts counts) limit rings
        (record { first = first; second = second; len = length; volume = volume }))
        × (as_intent result.intent ≡ intent_in degrees.now sides.now ends.now (as_counts counts) limit rings
        (record { first = first; second = second; len = length; volume = volume })) }
{
    let checked = check_edge(counts, limit, first, second, length, volume);
    match checked {
        Ok(edge) => {
            let a = edge.first;
            let b = edge.second;
            let offered = offer_edge(degrees, sides, ends, labels, counts.edges, a, b, rings);
            let plan = offered.plan;
            let quote = quote_with(Ok(offered.offer), counts, first, second, length, volume);
            let intent = Ok(Intent { edge, plan });
            Prepared { quote, intent }
        }
        Err(refusal) => {
            let quote = quote_with(Err(refusal), counts, first, second, length, volume);
            let intent = Err(refusal);
            Prepared { quote, intent }
        }
    }
}

// The quote alone. `rings` may be false only where no ring stands.
pub fn quote_edge(
    degrees: &[u16],
    sides: &[u16],
    ends: &[u16],
    labels: &[u32],
    counts: Counts,
    limit: u16,
    first: u16,
    second: u16,
    length: u32,
    volume: u32,
    rings: bool,
) -> Quote
    ensures { as_quote result
        ≡ quote_in degrees.now sides.now ends.now labels.now (as_counts counts) limit rings
        (record { first = first; second = second; len = length; volume = volume }) }
{
    let prepared = prepare_edge(
        degrees, sides, ends, labels, counts, limit, first, second, length, volume, rings,
    );
    prepared.quote
}
