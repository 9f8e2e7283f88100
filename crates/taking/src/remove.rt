// Remove for a house: a pipe taken out of its register by its number.
ghost use Rattle.std.specs.Prelude.{◌≡◌};
ghost use Rattle.nursery.specs.Calls.{removes, in_house, step};
ghost use Rattle.lent.specs.Lent.{of_lent, SameLent};
ghost use Rattle.tables.specs.Meaning.{tables};
ghost use Rattle.heads.specs.Meaning.{lent, outcome};
ghost use Rattle.settling.specs.Meaning.{removed_reply};

use crate::house::remove_house;
use counters::refusals::Refusal;
use heads::heads::{Heads, Updated};
use lent::slices::Tables;
use licence::gate::pass_others;

// The heads by value: `remove` has them lent.
pub fn remove_with(
    heads: Heads,
    register: &mut Tables,
    shares: &[u16],
    scratch: &mut Tables,
    house: u32,
    edge: u32,
    out: &mut [u32],
) -> Updated<u16>
    ensures lent { SameLent register.new register.old × SameLent scratch.new scratch.old }
    ensures takes { outcome (of_lent register.new) result.heads shares.now (of_lent scratch.new) out.new (removed_reply result.answer)
        ≡ step (in_house house (removes edge out.old)) (lent (of_lent register.old) heads shares.now (of_lent scratch.old)) }
{
    match pass_others(&register.view(), heads, shares, scratch, house, false) {
        Ok(limit) => remove_house(heads, register, scratch, house as usize, edge, out),
        Err(refusal) => Updated {
            heads,
            answer: Err(refusal),
        },
    }
}

// What outsiders call: the heads are lent, and those of this house are updated in the caller's copy.
pub fn remove(
    heads: &mut Heads,
    degrees: &mut [u16],
    sides: &mut [u16],
    ends: &mut [u16],
    lengths: &mut [u32],
    volumes: &mut [u32],
    labels: &mut [u32],
    shares: &[u16],
    sdegrees: &mut [u16],
    ssides: &mut [u16],
    sends: &mut [u16],
    slengths: &mut [u32],
    svolumes: &mut [u32],
    slabels: &mut [u32],
    house: u32,
    edge: u32,
    out: &mut [u32],
) -> Result<u16, Refusal>
    ensures { outcome (tables degrees.new sides.new ends.new lengths.new volumes.new labels.new) heads.new shares.now
        (tables sdegrees.new ssides.new sends.new slengths.new svolumes.new slabels.new) out.new (removed_reply result)
        ≡ step (in_house house (removes edge out.old))
        (lent (tables degrees.old sides.old ends.old lengths.old volumes.old labels.old) heads.old shares.now
        (tables sdegrees.old ssides.old sends.old slengths.old svolumes.old slabels.old)) }
{
    let mut register = Tables {
        degrees,
        sides,
        ends,
        lengths,
        volumes,
        labels,
    };
    let mut scratch = Tables {
        degrees: sdegrees,
        sides: ssides,
        ends: sends,
        lengths: slengths,
        volumes: svolumes,
        labels: slabels,
    };
    let r = remove_with(
        *heads,
        &mut register,
        shares,
        &mut scratch,
        house,
        edge,
        out,
    );
    *heads = r.heads;
    r.answer
}
