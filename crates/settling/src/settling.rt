// The other pipes stand landed in scratch: 9, and nothing is written; or the report, and they take the register's place.
ghost use Rattle.std.specs.Prelude.{◌≡◌};
ghost use Rattle.model.specs.Tables.{sizes};
ghost use Rattle.counters.specs.Answers.{as_counts};
ghost use Rattle.lent.specs.Lent.{of_lent, SameLent};
ghost use Rattle.admission.specs.Lent.{outcome};
ghost use Rattle.settling.specs.Meaning.{removed_reply};
ghost use Rattle.settling.specs.Settling.{settled_in};

use clearing::whole::clear_tables;
use counters::answers::Answered;
use counters::counts::Counts;
use counters::numbers::Vertex;
use counters::refusals::Refusal;
use lent::slices::Tables;
use replacing::changes::{count_changes, put_changes};
use replacing::copying::copy_tables;

// How many numbers the report has for a fitting.
const CHANGE: usize = 3;

// The other edges stand landed in scratch, with the counts `next`: 9, and all stays; or the report, of
// so many fittings, and they stand in the register.
pub fn settle(
    c: Counts,
    next: Counts,
    register: &mut Tables,
    scratch: &mut Tables,
    out: &mut [u32],
) -> Answered<u16>
    ensures lent { SameLent register.new register.old × SameLent scratch.new scratch.old }
    ensures settles { sizes (of_lent scratch.old) ≡ sizes (of_lent register.old)
        → outcome (of_lent register.new) (as_counts result.counts) (of_lent scratch.new) out.new (removed_reply result.answer)
        ≡ settled_in (of_lent register.old) (as_counts c) (of_lent scratch.old) (as_counts next) out.old }
{
    let before = register.view();
    let after = scratch.view();
    let number = count_changes(before.labels, after.labels, Vertex::COUNT);
    if out.len() < CHANGE * (number as usize) {
        clear_tables(scratch);
        return Answered {
            counts: c,
            answer: Err(Refusal::ShortSlice),
        };
    }
    put_changes(before.labels, after.labels, Vertex::COUNT, out);
    copy_tables(&after, register);
    clear_tables(scratch);
    Answered {
        counts: next,
        answer: Ok(number),
    }
}
