// Grow: a list landed on the cleared register of house h. The count of removals is "0 when cleared" (document 02, S-11).
ghost use Rattle.std.specs.Prelude.{◌≡◌, ℕ, ◌<◌, [], get_or, set};
ghost use Rattle.model.specs.Tables.{no_counts};
ghost use Rattle.nursery.specs.Calls.{grows};
ghost use Rattle.nursery.specs.Licence.{houses};
ghost use Rattle.nursery.specs.Nursery.{tables_in};
ghost use Rattle.counters.specs.Answers.{list_reply};
ghost use Rattle.lent.specs.Lent.{of_lent, SameLent};
ghost use Rattle.admission.specs.Lent as own;
ghost use Rattle.admission.specs.Own.{own_step};
ghost use Rattle.heads.specs.Meaning.{as_heads, as_removals};
ghost use Rattle.heads.specs.Others.{Long};
ghost use Rattle.licence.specs.Left.{left, put_own};

use calls::grow::grow_own;
use counters::answers::Stop;
use counters::sizes::{EDGES, ENDS, SIDES, VERTICES};
use heads::heads::{Heads, Updated, head_of, with_head, with_removals};
use lent::slices::Tables;

// On the part of house h, with the limit that the licence comes to.
pub fn grow_house(
    heads: Heads,
    limit: u16,
    register: &mut Tables,
    scratch: &mut Tables,
    h: usize,
    list: &[u8],
) -> Updated<Stop>
    requires { (h < houses) × Long (of_lent register.old) }
    ensures lent { SameLent register.new register.old × SameLent scratch.new scratch.old }
    ensures steps { (removals : ℕ) → left (of_lent register.new) (as_heads result.heads) (of_lent scratch.new) [] (list_reply result.answer)
        ≡ put_own h (of_lent register.old) (as_heads heads)
        (own_step limit removals (grows list.now)
        (own.lent (tables_in h (of_lent register.old)) (get_or (as_heads heads) h no_counts) (of_lent scratch.old))) }
    ensures count { as_removals result.heads ≡ set (as_removals heads) h 0 }
{
    let v = VERTICES * h;
    let s = SIDES * h;
    let n = ENDS * h;
    let e = EDGES * h;
    let own = grow_own(
        head_of(heads, h),
        limit,
        &mut register.degrees[v..v + VERTICES],
        &mut register.sides[s..s + SIDES],
        &mut register.ends[n..n + ENDS],
        &mut register.lengths[e..e + EDGES],
        &mut register.volumes[e..e + EDGES],
        &mut register.labels[v..v + VERTICES],
        scratch,
        list,
    );
    let answer = own.answer;
    Updated {
        heads: with_removals(with_head(heads, h, own.counts), h, 0),
        answer,
    }
}
