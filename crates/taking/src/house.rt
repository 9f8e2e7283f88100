// Remove on the part of one house.
ghost use Rattle.std.specs.Prelude.{◌≡◌, ℕ, ◌<◌, get_or, set};
ghost use Rattle.model.specs.Tables.{no_counts};
ghost use Rattle.nursery.specs.Calls.{removes};
ghost use Rattle.nursery.specs.Licence.{houses};
ghost use Rattle.nursery.specs.Nursery.{tables_in};
ghost use Rattle.lent.specs.Lent.{of_lent, SameLent};
ghost use Rattle.admission.specs.Lent as own;
ghost use Rattle.admission.specs.Own.{own_step};
ghost use Rattle.heads.specs.Meaning.{as_heads, as_removals};
ghost use Rattle.heads.specs.Others.{Long};
ghost use Rattle.settling.specs.Meaning.{removed_reply};
ghost use Rattle.licence.specs.Left.{left, put_own};
ghost use Rattle.taking.specs.Counting.{count_after};

use counters::refusals::Refusal;
use counters::sizes::{EDGES, ENDS, SIDES, VERTICES};
use heads::heads::{Heads, Updated, head_of, removals_of, with_head, with_removals};
use lent::slices::Tables;
use removing::own::remove_own;
use tables::access::one_more32;

// A removal that is reported is counted.
fn count_removal(heads: Heads, h: usize, answer: Result<u16, Refusal>) -> Heads
    requires { h < houses }
    ensures { (as_heads result ≡ as_heads heads) × (as_removals result ≡ set (as_removals heads) h (count_after answer (get_or (as_removals heads) h 0))) }
{
    match answer {
        Ok(number) => with_removals(heads, h, one_more32(removals_of(heads, h))),
        Err(refusal) => heads,
    }
}

// Edge `edge` of house h.
pub fn remove_house(
    heads: Heads,
    register: &mut Tables,
    scratch: &mut Tables,
    h: usize,
    edge: u32,
    out: &mut [u32],
) -> Updated<u16>
    requires { (h < houses) × Long (of_lent register.old) }
    ensures lent { SameLent register.new register.old × SameLent scratch.new scratch.old }
    ensures steps { (limit : ℕ) → left (of_lent register.new) (as_heads result.heads) (of_lent scratch.new) out.new (removed_reply result.answer)
        ≡ put_own h (of_lent register.old) (as_heads heads) (own_step limit (get_or (as_removals heads) h 0) (removes edge out.old)
        (own.lent (tables_in h (of_lent register.old)) (get_or (as_heads heads) h no_counts) (of_lent scratch.old))) }
    ensures count { as_removals result.heads ≡ set (as_removals heads) h (count_after result.answer (get_or (as_removals heads) h 0)) }
{
    let v = VERTICES * h;
    let s = SIDES * h;
    let n = ENDS * h;
    let e = EDGES * h;
    let own = remove_own(
        head_of(heads, h),
        removals_of(heads, h),
        &mut register.degrees[v..v + VERTICES],
        &mut register.sides[s..s + SIDES],
        &mut register.ends[n..n + ENDS],
        &mut register.lengths[e..e + EDGES],
        &mut register.volumes[e..e + EDGES],
        &mut register.labels[v..v + VERTICES],
        scratch,
        edge,
        out,
    );
    let answer = own.answer;
    let counted = count_removal(heads, h, answer);
    Updated {
        heads: with_head(counted, h, own.counts),
        answer,
    }
}
