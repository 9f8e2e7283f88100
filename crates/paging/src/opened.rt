// A house's sheet that is opened and then fetched line by line (document 02, S-6, S-10, S-11): 25, 21, 37, then 39 and 33.
ghost use Rattle.std.specs.Prelude.{◌≡◌, []};
ghost use Rattle.tables.specs.Meaning.{tables};
ghost use Rattle.opening.specs.Meaning.{as_sheet, fetched_reply, opened_reply};
ghost use Rattle.nursery.specs.Calls.{fetches, opens, in_house, step};
ghost use Rattle.heads.specs.Meaning.{lent, outcome};

use counters::refusals::Refusal;
use heads::heads::{Heads, head_of, removals_of};
use heads::part::part_of;
use lent::slices::{Tables, View};
use licence::gate::pass_others;
use opening::sheets::{Fetched, OpenSheet};

// It has the counts of the house now.
pub fn open(
    degrees: &[u16],
    sides: &[u16],
    ends: &[u16],
    lengths: &[u32],
    volumes: &[u32],
    labels: &[u32],
    heads: Heads,
    shares: &[u16],
    sdegrees: &mut [u16],
    ssides: &mut [u16],
    sends: &mut [u16],
    slengths: &mut [u32],
    svolumes: &mut [u32],
    slabels: &mut [u32],
    house: u32,
) -> Result<OpenSheet, Refusal>
    ensures { outcome (tables degrees.now sides.now ends.now lengths.now volumes.now labels.now) heads shares.now (tables sdegrees.new ssides.new sends.new slengths.new svolumes.new slabels.new) [] (opened_reply result)
        ≡ step (in_house house opens) (lent (tables degrees.now sides.now ends.now lengths.now volumes.now labels.now) heads shares.now (tables sdegrees.old ssides.old sends.old slengths.old svolumes.old slabels.old)) }
{
    let register = View {
        degrees,
        sides,
        ends,
        lengths,
        volumes,
        labels,
    };
    let mut scratch = Tables {
        degrees: sdegrees,
        sides: ssides,
        ends: sends,
        lengths: slengths,
        volumes: svolumes,
        labels: slabels,
    };
    pass_others(&register, heads, shares, &mut scratch, house, false)?;
    let h = house as usize;
    OpenSheet::open(
        &part_of(&register, h),
        head_of(heads, h),
        &mut scratch,
        removals_of(heads, h),
    )
}

// A line, and the sheet at the next one; or that it is done.
pub fn fetch(
    degrees: &[u16],
    sides: &[u16],
    ends: &[u16],
    lengths: &[u32],
    volumes: &[u32],
    labels: &[u32],
    heads: Heads,
    shares: &[u16],
    sdegrees: &mut [u16],
    ssides: &mut [u16],
    sends: &mut [u16],
    slengths: &mut [u32],
    svolumes: &mut [u32],
    slabels: &mut [u32],
    house: u32,
    sheet: OpenSheet,
) -> Result<Fetched, Refusal>
    ensures { outcome (tables degrees.now sides.now ends.now lengths.now volumes.now labels.now) heads shares.now (tables sdegrees.new ssides.new sends.new slengths.new svolumes.new slabels.new) [] (fetched_reply result)
        ≡ step (in_house house (fetches (as_sheet sheet))) (lent (tables degrees.now sides.now ends.now lengths.now volumes.now labels.now) heads shares.now (tables sdegrees.old ssides.old sends.old slengths.old svolumes.old slabels.old)) }
{
    let register = View {
        degrees,
        sides,
        ends,
        lengths,
        volumes,
        labels,
    };
    let mut scratch = Tables {
        degrees: sdegrees,
        sides: ssides,
        ends: sends,
        lengths: slengths,
        volumes: svolumes,
        labels: slabels,
    };
    pass_others(&register, heads, shares, &mut scratch, house, false)?;
    let h = house as usize;
    sheet.fetch(
        &part_of(&register, h),
        head_of(heads, h),
        &mut scratch,
        removals_of(heads, h),
    )
}
