// The commit of a quote (document 02, S-5): its edge lands if a quote made now is the same, or its refusal is given; else 32.
ghost use Rattle.std.specs.Prelude.{◌≡◌};
ghost use Rattle.counters.specs.Answers.{as_counts};
ghost use Rattle.counters.specs.Quotes.{as_quote};
ghost use Rattle.tables.specs.Meaning.{tables};
ghost use Rattle.insertion.specs.Insertion.{landing_in};
ghost use Rattle.insertion.specs.Meaning.{as_answer};
ghost use Rattle.committing.specs.Committing.{commit_in};

use crate::edges::land_edge;
use counters::counts::Counts;
use counters::quotes::{Quote, same_quote};
use counters::refusals::Refusal;
use insertion::edges::Inserted;
use quoting::edges::quote_edge;

// A quote with a refusal that still holds is the same as one made now, and landing its edge gives that refusal. The quote made now is of a
// register that may not pass `limit` edges. `rings` may be false only where no ring stands.
pub fn commit_quote(
    degrees: &mut [u16],
    sides: &mut [u16],
    ends: &mut [u16],
    lengths: &mut [u32],
    volumes: &mut [u32],
    labels: &mut [u32],
    counts: Counts,
    limit: u16,
    quote: Quote,
    rings: bool,
) -> Result<Inserted, Refusal>
    ensures { landing_in
        (tables degrees.new sides.new ends.new lengths.new volumes.new labels.new) (as_answer result)
        ≡ commit_in
        (tables degrees.old sides.old ends.old lengths.old volumes.old labels.old)
        (as_counts counts) limit rings (as_quote quote) }
{
    let first = quote.first;
    let second = quote.second;
    let length = quote.length;
    let volume = quote.volume;
    let made = quote_edge(
        degrees, sides, ends, labels, counts, limit, first, second, length, volume, rings,
    );
    if !same_quote(quote, made) {
        return Err(Refusal::OtherQuote);
    }
    land_edge(
        degrees, sides, ends, lengths, volumes, labels, counts, limit, first, second, length,
        volume, rings,
    )
}
