// Remove on the tables of one house: 25, 21, then 38, then 9.
ghost use Rattle.std.specs.Prelude.{◌≡◌, ℕ, ◌<◌, false, ◌||◌, leb};
ghost use Rattle.model.specs.Tables.{sizes};
ghost use Rattle.nursery.specs.Calls.{removes};
ghost use Rattle.nursery.specs.Removal.{max_removals};
ghost use Rattle.counters.specs.Answers.{as_counts};
ghost use Rattle.lent.specs.Lent.{of_lent, SameLent};
ghost use Rattle.tables.specs.Meaning.{tables};
ghost use Rattle.admission.specs.Lent.{lent, outcome};
ghost use Rattle.admission.specs.Own.{own_step};
ghost use Rattle.settling.specs.Meaning.{removed_reply};
ghost use Rattle.removing.specs.Removing.{removed_in};

use admission::gate::pass_gate;
use clearing::whole::clear_tables;
use counters::answers::Answered;
use counters::counts::Counts;
use counters::refusals::Refusal;
use lent::slices::Tables;
use rest::rest::land_rest;
use settling::settling::settle;

// The largest count of removals.
const MOST_REMOVALS: u32 = 4294967295;

// 38: there is no such edge, or the count is at its largest.
fn not_removable(edges: u16, removals: u32, edge: u32) -> bool
    ensures { (result ≡ (leb edges edge || leb max_removals removals)) × (result ≡ false → edge < 65536) }
{
    if edges as u32 <= edge {
        return true;
    }
    MOST_REMOVALS <= removals
}

// Behind the gate, and an edge that there is: the others are landed anew in scratch, which comes cleared.
fn take_out(
    c: Counts,
    register: &mut Tables,
    scratch: &mut Tables,
    edge: u16,
    out: &mut [u32],
) -> Answered<u16>
    requires { edge < c.edges }
    ensures lent { SameLent register.new register.old × SameLent scratch.new scratch.old }
    ensures takes { sizes (of_lent scratch.old) ≡ sizes (of_lent register.old)
        → outcome (of_lent register.new) (as_counts result.counts) (of_lent scratch.new) out.new (removed_reply result.answer)
        ≡ removed_in (of_lent register.old) (as_counts c) (of_lent scratch.old) edge out.old }
{
    match land_rest(&register.view(), c, edge, scratch) {
        Ok(landed) => settle(c, landed.counts, register, scratch, out),
        Err(refusal) => {
            clear_tables(scratch);
            Answered {
                counts: c,
                answer: Err(refusal),
            }
        }
    }
}

// The pipe of this number, from a house that has counted so many removals.
// The register comes as slices: of a part that is lent in a struct the borrow checker does not tell what it holds afterwards.
pub fn remove_own(
    c: Counts,
    removals: u32,
    degrees: &mut [u16],
    sides: &mut [u16],
    ends: &mut [u16],
    lengths: &mut [u32],
    volumes: &mut [u32],
    labels: &mut [u32],
    scratch: &mut Tables,
    edge: u32,
    out: &mut [u32],
) -> Answered<u16>
    ensures lent { SameLent scratch.new scratch.old }
    ensures steps { (limit : ℕ) → outcome (tables degrees.new sides.new ends.new lengths.new volumes.new labels.new) (as_counts result.counts) (of_lent scratch.new) out.new (removed_reply result.answer)
        ≡ own_step limit removals (removes edge out.old)
        (lent (tables degrees.old sides.old ends.old lengths.old volumes.old labels.old) (as_counts c) (of_lent scratch.old)) }
{
    let mut register = Tables {
        degrees,
        sides,
        ends,
        lengths,
        volumes,
        labels,
    };
    if let Err(refusal) = pass_gate(&register.view(), c, scratch) {
        return Answered {
            counts: c,
            answer: Err(refusal),
        };
    }
    if not_removable(c.edges, removals, edge) {
        return Answered {
            counts: c,
            answer: Err(Refusal::NotRemovable),
        };
    }
    take_out(c, &mut register, scratch, edge as u16, out)
}
