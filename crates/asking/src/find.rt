// Find (document 02, S-7): a label (document 01: tag) gives the name of its chain (run), the regular vertex (coupling) that wears it and the
// lengths from there to the ends of the chain; a vertex gives the same through its label: 25, 21, then 8.
ghost use Rattle.std.specs.Prelude.{◌≡◌, ℕ, []};
ghost use Rattle.nursery.specs.Calls.{finds, finds_at};
ghost use Rattle.admission.specs.Own.{own_step};
ghost use Rattle.counters.specs.Answers.{as_counts};
ghost use Rattle.lent.specs.Lent.{of_lent, of_view, SameLent};
ghost use Rattle.admission.specs.Lent.{lent, outcome};
ghost use Rattle.questions.specs.Meaning.{found_reply};

use admission::gate::pass_gate;
use counters::counts::Counts;
use counters::numbers::{Label, Vertex};
use counters::refusals::Refusal;
use lent::slices::{Tables, View};
use looking::through::FoundChain;
use questions::find::{find_at_cleared, find_cleared};

// The scratch's sides serve for the order of the search.
pub fn find(
    register: &View,
    counts: Counts,
    scratch: &mut Tables,
    label: Label,
) -> Result<FoundChain, Refusal>
    ensures lent { SameLent scratch.new scratch.old }
    ensures answers { (limit removals : ℕ) → outcome (of_view register.now) (as_counts counts) (of_lent scratch.new) [] (found_reply result)
        ≡ own_step limit removals (finds label.0) (lent (of_view register.now) (as_counts counts) (of_lent scratch.old)) }
{
    pass_gate(register, counts, scratch)?;
    find_cleared(register, counts, scratch.sides, label)
}

// By a vertex. Any number is answered: 8 where no regular vertex has it.
pub fn find_at(
    register: &View,
    counts: Counts,
    scratch: &mut Tables,
    vertex: Vertex,
) -> Result<FoundChain, Refusal>
    ensures lent { SameLent scratch.new scratch.old }
    ensures answers { (limit removals : ℕ) → outcome (of_view register.now) (as_counts counts) (of_lent scratch.new) [] (found_reply result)
        ≡ own_step limit removals (finds_at vertex.0) (lent (of_view register.now) (as_counts counts) (of_lent scratch.old)) }
{
    pass_gate(register, counts, scratch)?;
    find_at_cleared(register, counts, scratch.sides, vertex)
}
