// Commit for a house: the pipe of a quote landed on its register as it is.
ghost use Rattle.std.specs.Prelude.{◌≡◌, []};
ghost use Rattle.nursery.specs.Calls.{commits, in_house, step};
ghost use Rattle.counters.specs.Quotes.{as_quote, commit_reply};
ghost use Rattle.lent.specs.Lent.{of_lent, SameLent};
ghost use Rattle.tables.specs.Meaning.{tables};
ghost use Rattle.heads.specs.Meaning.{lent, outcome};

use counters::quotes::Quote;
use counters::refusals::Refusal;
use heads::heads::{Heads, Updated};
use lent::slices::Tables;
use licence::gate::pass_others;
use parts::commit::commit_house;

// The heads by value: `commit` has them lent.
pub fn commit_with(
    heads: Heads,
    register: &mut Tables,
    shares: &[u16],
    scratch: &mut Tables,
    house: u32,
    quote: Quote,
) -> Updated<()>
    ensures lent { SameLent register.new register.old × SameLent scratch.new scratch.old }
    ensures steps { outcome (of_lent register.new) result.heads shares.now (of_lent scratch.new) [] (commit_reply result.answer)
        ≡ step (in_house house (commits (as_quote quote))) (lent (of_lent register.old) heads shares.now (of_lent scratch.old)) }
{
    let passed = pass_others(&register.view(), heads, shares, scratch, house, false);
    match passed {
        Ok(limit) => commit_house(heads, limit, register, scratch, house as usize, quote),
        Err(refusal) => Updated {
            heads,
            answer: Err(refusal),
        },
    }
}

// What outsiders call: the heads are lent, and the head of this house is updated in the caller's copy.
pub fn commit(
    heads: &mut Heads,
    degrees: &mut [u16],
    sides: &mut [u16],
    ends: &mut [u16],
    lengths: &mut [u32],
    volumes: &mut [u32],
    labels: &mut [u32],
    shares: &[u16],
    sdegrees: &mut [u16],
    ssides: &mut [u16],
    sends: &mut [u16],
    slengths: &mut [u32],
    svolumes: &mut [u32],
    slabels: &mut [u32],
    house: u32,
    quote: Quote,
) -> Result<(), Refusal>
    ensures { outcome (tables degrees.new sides.new ends.new lengths.new volumes.new labels.new) heads.new shares.now
        (tables sdegrees.new ssides.new sends.new slengths.new svolumes.new slabels.new) [] (commit_reply result)
        ≡ step (in_house house (commits (as_quote quote)))
        (lent (tables degrees.old sides.old ends.old lengths.old volumes.old labels.old) heads.old shares.now
        (tables sdegrees.old ssides.old sends.old slengths.old svolumes.old slabels.old)) }
{
    let c = *heads;
    let mut register = Tables {
        degrees,
        sides,
        ends,
        lengths,
        volumes,
        labels,
    };
    let mut scratch = Tables {
        degrees: sdegrees,
        sides: ssides,
        ends: sends,
        lengths: slengths,
        volumes: svolumes,
        labels: slabels,
    };
    let r = commit_with(c, &mut register, shares, &mut scratch, house, quote);
    *heads = r.heads;
    r.answer
}
