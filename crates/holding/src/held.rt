// Refusal 21: the register's own edges are landed again, from empty, in scratch, and what that leaves is compared with the register.
ghost use Rattle.std.specs.Prelude.{◌≡◌};
ghost use Rattle.counters.specs.Answers.{as_counts};
ghost use Rattle.lent.specs.Lent.{of_lent, of_view, SameLent};
ghost use Rattle.tables.specs.Steps.{zeroed};
ghost use Rattle.holding.specs.Replay.{Regrows};

use crate::replay::regrow;
use clearing::whole::{clear_tables, same_tables};
use counters::counts::Counts;
use lent::slices::{Tables, View};

// Whether the replay in cleared scratch leaves the register that is lent.
fn leaves_same(register: &View, own: Counts, scratch: &mut Tables) -> bool
    ensures lent { SameLent scratch.new scratch.old }
    ensures tells { Regrows result (of_view register.now) (as_counts own) (of_lent scratch.old) }
{
    match regrow(register, own, scratch) {
        Ok(landed) => landed.counts == own && same_tables(register, &scratch.view()),
        Err(_) => false,
    }
}

// Whether the register is one that growing its own vertices and edges from empty leaves. Scratch ends all zero.
pub fn is_held(register: &View, own: Counts, scratch: &mut Tables) -> bool
    ensures lent { SameLent scratch.new scratch.old }
    ensures cleared { of_lent scratch.new ≡ zeroed (of_lent scratch.old) }
    ensures tells { Regrows result (of_view register.now) (as_counts own) (zeroed (of_lent scratch.old)) }
{
    clear_tables(scratch);
    let same = leaves_same(register, own, scratch);
    clear_tables(scratch);
    same
}
