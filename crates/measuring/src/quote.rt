// Quote in a house (document 02, S-5, S-10): what landing a pipe would do, within the limit of the house: 25, 21, then 37.
ghost use Rattle.std.specs.Prelude.{◌≡◌, []};
ghost use Rattle.tables.specs.Meaning.{tables};
ghost use Rattle.counters.specs.Quotes.{quote_reply};
ghost use Rattle.nursery.specs.Calls.{quotes, in_house, step};
ghost use Rattle.heads.specs.Meaning.{lent, outcome};

use asking::quote::quote as quote_own;
use counters::quotes::Quote;
use counters::refusals::Refusal;
use heads::heads::{Heads, head_of};
use heads::part::part_of;
use lent::slices::{Tables, View};
use licence::gate::pass_others;

// A refused pipe is quoted too.
pub fn quote(
    degrees: &[u16],
    sides: &[u16],
    ends: &[u16],
    lengths: &[u32],
    volumes: &[u32],
    labels: &[u32],
    heads: Heads,
    shares: &[u16],
    sdegrees: &mut [u16],
    ssides: &mut [u16],
    sends: &mut [u16],
    slengths: &mut [u32],
    svolumes: &mut [u32],
    slabels: &mut [u32],
    house: u32,
    first: u16,
    second: u16,
    length: u32,
    volume: u32,
) -> Result<Quote, Refusal>
    ensures { outcome (tables degrees.now sides.now ends.now lengths.now volumes.now labels.now) heads shares.now (tables sdegrees.new ssides.new sends.new slengths.new svolumes.new slabels.new) [] (quote_reply result)
        ≡ step (in_house house (quotes (record { first = first; second = second; len = length; volume = volume }))) (lent (tables degrees.now sides.now ends.now lengths.now volumes.now labels.now) heads shares.now (tables sdegrees.old ssides.old sends.old slengths.old svolumes.old slabels.old)) }
{
    let register = View {
        degrees,
        sides,
        ends,
        lengths,
        volumes,
        labels,
    };
    let mut scratch = Tables {
        degrees: sdegrees,
        sides: ssides,
        ends: sends,
        lengths: slengths,
        volumes: svolumes,
        labels: slabels,
    };
    let limit = pass_others(&register, heads, shares, &mut scratch, house, false)?;
    let h = house as usize;
    let own = head_of(heads, h);
    quote_own(
        &part_of(&register, h),
        own,
        &mut scratch,
        limit,
        first,
        second,
        length,
        volume,
    )
}
