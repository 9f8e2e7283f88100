// Write: the list of the register (document 02, S-1) to the front of a lent slice of bytes: 25, 21, then 9.
ghost use Rattle.std.specs.Prelude.{◌≡◌, ℕ};
ghost use Rattle.nursery.specs.Calls.{writes};
ghost use Rattle.admission.specs.Own.{own_step};
ghost use Rattle.counters.specs.Answers.{as_counts};
ghost use Rattle.lent.specs.Lent.{of_lent, of_view, SameLent};
ghost use Rattle.admission.specs.Lent.{lent, outcome};
ghost use Rattle.questions.specs.Meaning.{written_reply};

use admission::gate::pass_gate;
use counters::counts::Counts;
use counters::refusals::Refusal;
use lent::slices::{Tables, View};
use questions::write::write_in;

pub fn write(
    register: &View,
    counts: Counts,
    scratch: &mut Tables,
    out: &mut [u8],
) -> Result<u32, Refusal>
    ensures lent { SameLent scratch.new scratch.old }
    ensures answers { (limit removals : ℕ) → outcome (of_view register.now) (as_counts counts) (of_lent scratch.new) out.new (written_reply result)
        ≡ own_step limit removals (writes out.old) (lent (of_view register.now) (as_counts counts) (of_lent scratch.old)) }
{
    pass_gate(register, counts, scratch)?;
    write_in(
        register.ends,
        register.lengths,
        register.volumes,
        counts,
        out,
    )
}
