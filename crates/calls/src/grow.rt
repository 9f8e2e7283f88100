// Grow: a list landed on the cleared register.
ghost use Rattle.std.specs.Prelude.{◌≡◌, ℕ, []};
ghost use Rattle.nursery.specs.Calls.{grows};
ghost use Rattle.counters.specs.Answers.{as_counts, list_reply};
ghost use Rattle.lent.specs.Lent.{of_lent, SameLent};
ghost use Rattle.tables.specs.Meaning.{tables};
ghost use Rattle.admission.specs.Lent.{lent, outcome};
ghost use Rattle.admission.specs.Own.{own_step};

use crate::land::land_read;
use admission::gate::clear_if_fit;
use counters::answers::{Answered, Stop};
use counters::counts::Counts;
use counters::refusals::Refusal;
use lent::slices::Tables;

// On the tables of one house. The register may not pass `limit` edges.
pub fn grow_own(
    c: Counts,
    limit: u16,
    degrees: &mut [u16],
    sides: &mut [u16],
    ends: &mut [u16],
    lengths: &mut [u32],
    volumes: &mut [u32],
    labels: &mut [u32],
    scratch: &mut Tables,
    list: &[u8],
) -> Answered<Stop>
    ensures lent { SameLent scratch.new scratch.old }
    ensures steps { (removals : ℕ) → outcome (tables degrees.new sides.new ends.new lengths.new volumes.new labels.new) (as_counts result.counts) (of_lent scratch.new) [] (list_reply result.answer)
        ≡ own_step limit removals (grows list.now)
        (lent (tables degrees.old sides.old ends.old lengths.old volumes.old labels.old) (as_counts c) (of_lent scratch.old)) }
{
    let mut register = Tables {
        degrees,
        sides,
        ends,
        lengths,
        volumes,
        labels,
    };
    if !clear_if_fit(&mut register, scratch) {
        return Answered {
            counts: c,
            answer: Err(Refusal::WrongSize),
        };
    }
    let reading = land_read(Counts::none(), limit, &mut register, list);
    let counts = reading.counts;
    let stop = reading.stop;
    Answered {
        counts,
        answer: Ok(stop),
    }
}
