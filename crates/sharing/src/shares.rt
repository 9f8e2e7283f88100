// "all eight are set at once, only when all houses are empty (no fittings), the shares adding up to at most 4,096": 25, 21, then 37.
ghost use Rattle.std.specs.Prelude.{◌≡◌, [], length};
ghost use Rattle.tables.specs.Meaning.{tables};
ghost use Rattle.nursery.specs.Licence.{houses};
ghost use Rattle.nursery.specs.Calls.{sets_shares, step};
ghost use Rattle.heads.specs.Meaning.{lent, outcome};
ghost use Rattle.sharing.specs.Meaning.{allot_in, answered, shares_reply, vertices_of};

use crate::eight::{any_landed, sum_of};
use counters::refusals::Refusal;
use counters::sizes::MAX_EDGES;
use heads::heads::Heads;
use lent::slices::{Tables, View};
use licence::gate::pass_others;

// 37, or the shares.
fn allot(heads: Heads, shares: &mut [u16], asked: &[u16]) -> Result<(), Refusal>
    requires { (length shares.old ≡ houses) × (length asked.now ≡ houses) }
    ensures { answered shares.new (shares_reply result) ≡ allot_in asked.now (vertices_of heads) shares.old }
{
    if (MAX_EDGES as u32) < sum_of(asked) {
        return Err(Refusal::OutOfPlace);
    }
    if any_landed(heads) {
        return Err(Refusal::OutOfPlace);
    }
    shares.copy_from_slice(asked);
    Ok(())
}

// No house has the number 8: so the gate looks at all eight, and where nothing bars the call it says that there is no such house.
pub fn set_shares(
    degrees: &[u16],
    sides: &[u16],
    ends: &[u16],
    lengths: &[u32],
    volumes: &[u32],
    labels: &[u32],
    heads: Heads,
    shares: &mut [u16],
    sdegrees: &mut [u16],
    ssides: &mut [u16],
    sends: &mut [u16],
    slengths: &mut [u32],
    svolumes: &mut [u32],
    slabels: &mut [u32],
    asked: &[u16],
) -> Result<(), Refusal>
    ensures { outcome (tables degrees.now sides.now ends.now lengths.now volumes.now labels.now) heads shares.new (tables sdegrees.new ssides.new sends.new slengths.new svolumes.new slabels.new) [] (shares_reply result)
        ≡ step (sets_shares asked.now) (lent (tables degrees.now sides.now ends.now lengths.now volumes.now labels.now) heads shares.old (tables sdegrees.old ssides.old sends.old slengths.old svolumes.old slabels.old)) }
{
    if asked.len() != 8 {
        return Err(Refusal::WrongSize);
    }
    let register = View {
        degrees,
        sides,
        ends,
        lengths,
        volumes,
        labels,
    };
    let mut scratch = Tables {
        degrees: sdegrees,
        sides: ssides,
        ends: sends,
        lengths: slengths,
        volumes: svolumes,
        labels: slabels,
    };
    match pass_others(&register, heads, shares, &mut scratch, 8, false) {
        Ok(limit) => Err(Refusal::OutOfPlace),
        Err(refusal) => {
            if refusal != Refusal::OutOfPlace {
                return Err(refusal);
            }
            allot(heads, shares, asked)
        }
    }
}
