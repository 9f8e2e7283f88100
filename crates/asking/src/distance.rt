// Distance: the least length of a way between two vertices (document 01: fittings): 25, 21, then 5.
ghost use Rattle.std.specs.Prelude.{◌≡◌, ℕ, []};
ghost use Rattle.nursery.specs.Calls.{measures};
ghost use Rattle.admission.specs.Own.{own_step};
ghost use Rattle.counters.specs.Answers.{as_counts};
ghost use Rattle.lent.specs.Lent.{of_lent, of_view, SameLent};
ghost use Rattle.admission.specs.Lent.{lent, outcome};
ghost use Rattle.questions.specs.Meaning.{measured_reply};

use admission::gate::pass_gate;
use counters::counts::Counts;
use counters::numbers::{Millimetres, Vertex};
use counters::refusals::Refusal;
use lent::slices::{Tables, View};
use questions::measure::measure;

pub fn distance(
    register: &View,
    counts: Counts,
    scratch: &mut Tables,
    from: Vertex,
    to: Vertex,
) -> Result<Option<Millimetres>, Refusal>
    ensures lent { SameLent scratch.new scratch.old }
    ensures answers { (limit removals : ℕ) → outcome (of_view register.now) (as_counts counts) (of_lent scratch.new) [] (measured_reply result)
        ≡ own_step limit removals (measures from.0 to.0) (lent (of_view register.now) (as_counts counts) (of_lent scratch.old)) }
{
    pass_gate(register, counts, scratch)?;
    measure(register.ends, register.lengths, counts, scratch, from, to)
}
