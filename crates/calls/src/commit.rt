// Commit: the pipe of a quote landed on the register as it is, once that has passed its replay: 25, 21, 32, then the quote's own refusal.
ghost use Rattle.std.specs.Prelude.{◌≡◌, ℕ, []};
ghost use Rattle.nursery.specs.Calls.{commits};
ghost use Rattle.counters.specs.Answers.{as_counts};
ghost use Rattle.counters.specs.Quotes.{as_quote, commit_reply};
ghost use Rattle.lent.specs.Lent.{of_lent, SameLent};
ghost use Rattle.tables.specs.Meaning.{tables};
ghost use Rattle.insertion.specs.Meaning.{as_answer};
ghost use Rattle.admission.specs.Lent.{lent, outcome};
ghost use Rattle.admission.specs.Own.{own_step};
ghost use Rattle.calls.specs.Committed.{counts_after, reply_to};

use admission::gate::pass_gate;
use committing::quotes::commit_quote;
use counters::answers::Answered;
use counters::counts::Counts;
use counters::quotes::Quote;
use counters::refusals::Refusal;
use insertion::edges::Inserted;
use lent::slices::{Tables, View};

// A landed pipe changes the counts; a refused one leaves them.
fn keep_counts(c: Counts, inserted: Result<Inserted, Refusal>) -> Answered<()>
    ensures { (as_counts result.counts ≡ counts_after (as_counts c) (as_answer inserted))
        × (commit_reply result.answer ≡ reply_to (as_answer inserted)) }
{
    match inserted {
        Ok(landed) => Answered {
            counts: landed.counts,
            answer: Ok(()),
        },
        Err(refusal) => Answered {
            counts: c,
            answer: Err(refusal),
        },
    }
}

// On the tables of one house. The register may not pass `limit` edges.
pub fn commit_own(
    c: Counts,
    limit: u16,
    degrees: &mut [u16],
    sides: &mut [u16],
    ends: &mut [u16],
    lengths: &mut [u32],
    volumes: &mut [u32],
    labels: &mut [u32],
    scratch: &mut Tables,
    quote: Quote,
) -> Answered<()>
    ensures lent { SameLent scratch.new scratch.old }
    ensures steps { (removals : ℕ) → outcome (tables degrees.new sides.new ends.new lengths.new volumes.new labels.new) (as_counts result.counts) (of_lent scratch.new) [] (commit_reply result.answer)
        ≡ own_step limit removals (commits (as_quote quote))
        (lent (tables degrees.old sides.old ends.old lengths.old volumes.old labels.old) (as_counts c) (of_lent scratch.old)) }
{
    let register = View {
        degrees,
        sides,
        ends,
        lengths,
        volumes,
        labels,
    };
    let passed = pass_gate(&register, c, scratch);
    match passed {
        Ok(()) => {
            let inserted = commit_quote(
                degrees, sides, ends, lengths, volumes, labels, c, limit, quote, true,
            );
            keep_counts(c, inserted)
        }
        Err(refusal) => Answered {
            counts: c,
            answer: Err(refusal),
        },
    }
}
