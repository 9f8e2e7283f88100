// The list of a house (document 02, S-1) to the front of a lent slice of bytes: 25, 21, 37, then 9.
ghost use Rattle.std.specs.Prelude.{◌≡◌};
ghost use Rattle.tables.specs.Meaning.{tables};
ghost use Rattle.questions.specs.Meaning.{written_reply};
ghost use Rattle.nursery.specs.Calls.{writes, in_house, step};
ghost use Rattle.heads.specs.Meaning.{lent, outcome};

use asking::write::write as write_own;
use counters::refusals::Refusal;
use heads::heads::{Heads, head_of};
use heads::part::part_of;
use lent::slices::{Tables, View};
use licence::gate::pass_others;

// The number of its bytes.
pub fn write(
    degrees: &[u16],
    sides: &[u16],
    ends: &[u16],
    lengths: &[u32],
    volumes: &[u32],
    labels: &[u32],
    heads: Heads,
    shares: &[u16],
    sdegrees: &mut [u16],
    ssides: &mut [u16],
    sends: &mut [u16],
    slengths: &mut [u32],
    svolumes: &mut [u32],
    slabels: &mut [u32],
    house: u32,
    out: &mut [u8],
) -> Result<u32, Refusal>
    ensures { outcome (tables degrees.now sides.now ends.now lengths.now volumes.now labels.now) heads shares.now (tables sdegrees.new ssides.new sends.new slengths.new svolumes.new slabels.new) out.new (written_reply result)
        ≡ step (in_house house (writes out.old)) (lent (tables degrees.now sides.now ends.now lengths.now volumes.now labels.now) heads shares.now (tables sdegrees.old ssides.old sends.old slengths.old svolumes.old slabels.old)) }
{
    let register = View {
        degrees,
        sides,
        ends,
        lengths,
        volumes,
        labels,
    };
    let mut scratch = Tables {
        degrees: sdegrees,
        sides: ssides,
        ends: sends,
        lengths: slengths,
        volumes: svolumes,
        labels: slabels,
    };
    pass_others(&register, heads, shares, &mut scratch, house, false)?;
    let h = house as usize;
    write_own(&part_of(&register, h), head_of(heads, h), &mut scratch, out)
}
