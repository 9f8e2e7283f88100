// Commit: the pipe of a quote landed on the register of house h as it is.
ghost use Rattle.std.specs.Prelude.{◌≡◌, ℕ, ◌<◌, [], get_or};
ghost use Rattle.model.specs.Tables.{no_counts};
ghost use Rattle.nursery.specs.Calls.{commits};
ghost use Rattle.nursery.specs.Licence.{houses};
ghost use Rattle.nursery.specs.Nursery.{tables_in};
ghost use Rattle.counters.specs.Quotes.{as_quote, commit_reply};
ghost use Rattle.lent.specs.Lent.{of_lent, SameLent};
ghost use Rattle.admission.specs.Lent as own;
ghost use Rattle.admission.specs.Own.{own_step};
ghost use Rattle.heads.specs.Meaning.{as_heads, as_removals};
ghost use Rattle.heads.specs.Others.{Long};
ghost use Rattle.licence.specs.Left.{left, put_own};

use calls::commit::commit_own;
use counters::quotes::Quote;
use counters::sizes::{EDGES, ENDS, SIDES, VERTICES};
use heads::heads::{Heads, Updated, head_of, with_head};
use lent::slices::Tables;

// On the part of house h, with the limit that the licence comes to.
pub fn commit_house(
    heads: Heads,
    limit: u16,
    register: &mut Tables,
    scratch: &mut Tables,
    h: usize,
    quote: Quote,
) -> Updated<()>
    requires { (h < houses) × Long (of_lent register.old) }
    ensures lent { SameLent register.new register.old × SameLent scratch.new scratch.old }
    ensures steps { (removals : ℕ) → left (of_lent register.new) (as_heads result.heads) (of_lent scratch.new) [] (commit_reply result.answer)
        ≡ put_own h (of_lent register.old) (as_heads heads)
        (own_step limit removals (commits (as_quote quote))
        (own.lent (tables_in h (of_lent register.old)) (get_or (as_heads heads) h no_counts) (of_lent scratch.old))) }
    ensures count { as_removals result.heads ≡ as_removals heads }
{
    let v = VERTICES * h;
    let s = SIDES * h;
    let n = ENDS * h;
    let e = EDGES * h;
    let own = commit_own(
        head_of(heads, h),
        limit,
        &mut register.degrees[v..v + VERTICES],
        &mut register.sides[s..s + SIDES],
        &mut register.ends[n..n + ENDS],
        &mut register.lengths[e..e + EDGES],
        &mut register.volumes[e..e + EDGES],
        &mut register.labels[v..v + VERTICES],
        scratch,
        quote,
    );
    let answer = own.answer;
    Updated {
        heads: with_head(heads, h, own.counts),
        answer,
    }
}
