// Sheet: six numbers a chain (document 01: run) to the front of a lent slice: 25, 21, then 9.
ghost use Rattle.std.specs.Prelude.{◌≡◌, ℕ};
ghost use Rattle.nursery.specs.Calls.{sheets};
ghost use Rattle.admission.specs.Own.{own_step};
ghost use Rattle.counters.specs.Answers.{as_counts};
ghost use Rattle.lent.specs.Lent.{of_lent, of_view, SameLent};
ghost use Rattle.admission.specs.Lent.{lent, outcome};
ghost use Rattle.questions.specs.Meaning.{listed_reply};

use admission::gate::pass_gate;
use counters::counts::Counts;
use counters::refusals::Refusal;
use lent::slices::{Tables, View};
use questions::sheet::sheet_cleared;

// The scratch's degrees and sides serve as marks.
pub fn sheet(
    register: &View,
    counts: Counts,
    scratch: &mut Tables,
    out: &mut [u32],
) -> Result<u16, Refusal>
    ensures lent { SameLent scratch.new scratch.old }
    ensures answers { (limit removals : ℕ) → outcome (of_view register.now) (as_counts counts) (of_lent scratch.new) out.new (listed_reply result)
        ≡ own_step limit removals (sheets out.old) (lent (of_view register.now) (as_counts counts) (of_lent scratch.old)) }
{
    pass_gate(register, counts, scratch)?;
    sheet_cleared(register, counts, scratch.degrees, scratch.sides, out)
}
