// The landing of one edge: a quote, and its commit, which writes down the edge, and leaves the tables and the counts.
ghost use Rattle.std.specs.Prelude.{◌≡◌};
ghost use Rattle.counters.specs.Answers.{as_counts};
ghost use Rattle.tables.specs.Meaning.{tables};
ghost use Rattle.insertion.specs.Insertion.{landing_in, land_in};
ghost use Rattle.insertion.specs.Meaning.{as_answer};
ghost use Rattle.quoting.specs.Meaning.{as_intent};
ghost use Rattle.committing.specs.Committing.{committed_in};

use counters::counts::Counts;
use counters::refusals::Refusal;
use insertion::edges::{Inserted, insert_edge};
use quoting::edges::{Intent, prepare_edge};

// The commit of a quote that was made now: what was planned with it is done, or its refusal is given, and the tables stay.
fn commit_edge(
    degrees: &mut [u16],
    sides: &mut [u16],
    ends: &mut [u16],
    lengths: &mut [u32],
    volumes: &mut [u32],
    labels: &mut [u32],
    counts: Counts,
    intent: Result<Intent, Refusal>,
    rings: bool,
) -> Result<Inserted, Refusal>
    ensures { landing_in
        (tables degrees.new sides.new ends.new lengths.new volumes.new labels.new) (as_answer result)
        ≡ committed_in
        (tables degrees.old sides.old ends.old lengths.old volumes.old labels.old)
        (as_counts counts) rings (as_intent intent) }
{
    let Intent { edge, plan } = intent?;
    Ok(insert_edge(
        degrees,
        sides,
        ends,
        lengths,
        volumes,
        labels,
        counts,
        edge.first,
        edge.second,
        edge.length,
        edge.volume,
        plan,
        rings,
    ))
}

// Document 02, S-5: a quote and its commit, in a register that may not pass `limit` edges. Every refusal in its order; a refused edge leaves
// the tables. `rings` may be false only where no ring stands; the answer's is then false only where none stands after the edge.
pub fn land_edge(
    degrees: &mut [u16],
    sides: &mut [u16],
    ends: &mut [u16],
    lengths: &mut [u32],
    volumes: &mut [u32],
    labels: &mut [u32],
    counts: Counts,
    limit: u16,
    first: u16,
    second: u16,
    length: u32,
    volume: u32,
    rings: bool,
) -> Result<Inserted, Refusal>
    ensures { landing_in
        (tables degrees.new sides.new ends.new lengths.new volumes.new labels.new) (as_answer result)
        ≡ land_in
        (tables degrees.old sides.old ends.old lengths.old volumes.old labels.old)
        (as_counts counts) limit rings (record { first = first; second = second; len = length; volume = volume }) }
{
    let prepared = prepare_edge(
        degrees, sides, ends, labels, counts, limit, first, second, length, volume, rings,
    );
    let intent = prepared.intent;
    commit_edge(
        degrees, sides, ends, lengths, volumes, labels, counts, intent, rings,
    )
}
