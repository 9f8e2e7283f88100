// The gate before a call for a house: 25, then 21 of the other houses and of the sum, then 37. The own house is looked at by the call itself, on
// its part of the tables; a grow clears it instead.
ghost use Rattle.std.specs.Prelude.{◌≡◌, ◌<◌, length};
ghost use Rattle.lent.specs.Lent.{of_lent, of_view, SameLent};
ghost use Rattle.nursery.specs.Licence.{houses};
ghost use Rattle.heads.specs.Meaning.{edges_of, lent};
ghost use Rattle.licence.specs.Gate.{as_passed, licence_in, own_reserve, pass_others, scratch_passed};

use crate::others::others_held;
use admission::sizes::sizes_fit;
use counters::refusals::Refusal;
use counters::sizes::MAX_EDGES;
use heads::heads::{Heads, head_of};
use heads::reserves::{larger, others_reserve};
use heads::sizes::houses_fit;
use lent::slices::{Tables, View};
use tables::access::at;

// What the house itself keeps of the licence: "A grow counts its own house as empty there".
fn own_reserve(heads: Heads, shares: &[u16], house: u32, grows: bool) -> u32
    requires { length shares.now ≡ houses }
    ensures { (result ≡ own_reserve house grows shares.now (edges_of heads)) × (result < 65536) }
{
    if 7 < house {
        return 0;
    }
    let h = house as usize;
    let share = at(shares, h);
    if grows {
        return larger(share, 0);
    }
    let own = head_of(heads, h);
    larger(share, own.edges)
}

// "holds too where the larger of share and pipes, summed over them, passes 4,096"; 37; or what the others leave of the licence.
fn pass_licence(heads: Heads, shares: &[u16], house: u32, grows: bool) -> Result<u16, Refusal>
    requires { length shares.now ≡ houses }
    ensures { as_passed result ≡ licence_in house grows shares.now (edges_of heads) }
{
    let licence = MAX_EDGES as u32;
    let others = others_reserve(heads, shares, house);
    let own = own_reserve(heads, shares, house, grows);
    if licence < others + own {
        return Err(Refusal::NotGrown);
    }
    if 7 < house {
        return Err(Refusal::OutOfPlace);
    }
    let limit = (licence - others) as u16;
    Ok(limit)
}

// Under 25 nothing is written; else scratch ends all zero.
pub fn pass_others(
    register: &View,
    heads: Heads,
    shares: &[u16],
    scratch: &mut Tables,
    house: u32,
    grows: bool,
) -> Result<u16, Refusal>
    ensures lent { SameLent scratch.new scratch.old }
    ensures gates { (as_passed result ≡ pass_others house grows (lent (of_view register.now) heads shares.now (of_lent scratch.old)))
        × (of_lent scratch.new ≡ scratch_passed (lent (of_view register.now) heads shares.now (of_lent scratch.old))) }
{
    if !houses_fit(register, shares) {
        return Err(Refusal::WrongSize);
    }
    if !sizes_fit(&scratch.view()) {
        return Err(Refusal::WrongSize);
    }
    if !others_held(register, heads, scratch, house) {
        return Err(Refusal::NotGrown);
    }
    pass_licence(heads, shares, house, grows)
}
