// Quote (document 02, S-5): what landing a pipe would come to, its case and re-hangings or its refusal, with the counts: 25, then 21. The pipe
// is asked for in plain numbers, since it may be one that is refused.
ghost use Rattle.std.specs.Prelude.{◌≡◌, ℕ, []};
ghost use Rattle.nursery.specs.Calls.{quotes};
ghost use Rattle.admission.specs.Own.{own_step};
ghost use Rattle.counters.specs.Answers.{as_counts};
ghost use Rattle.counters.specs.Quotes.{quote_reply};
ghost use Rattle.lent.specs.Lent.{of_lent, of_view, SameLent};
ghost use Rattle.admission.specs.Lent.{lent, outcome};

use admission::gate::pass_gate;
use counters::counts::Counts;
use counters::quotes::Quote;
use counters::refusals::Refusal;
use lent::slices::{Tables, View};
use quoting::edges::quote_edge;

pub fn quote(
    register: &View,
    counts: Counts,
    scratch: &mut Tables,
    limit: u16,
    first: u16,
    second: u16,
    length: u32,
    volume: u32,
) -> Result<Quote, Refusal>
    ensures lent { SameLent scratch.new scratch.old }
    ensures answers { (removals : ℕ) → outcome (of_view register.now) (as_counts counts) (of_lent scratch.new) [] (quote_reply result)
        ≡ own_step limit removals (quotes (record { first = first; second = second; len = length; volume = volume })) (lent (of_view register.now) (as_counts counts) (of_lent scratch.old)) }
{
    pass_gate(register, counts, scratch)?;
    Ok(quote_edge(
        register.degrees,
        register.sides,
        register.ends,
        register.labels,
        counts,
        limit,
        first,
        second,
        length,
        volume,
        true,
    ))
}
