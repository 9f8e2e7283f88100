// Find in a house (document 02, S-7, S-10): by a label (document 01: tag) or by a vertex (fitting): 25, 21, 37, then 8.
ghost use Rattle.std.specs.Prelude.{◌≡◌, []};
ghost use Rattle.tables.specs.Meaning.{tables};
ghost use Rattle.questions.specs.Meaning.{found_reply};
ghost use Rattle.nursery.specs.Calls.{finds, finds_at, in_house, step};
ghost use Rattle.heads.specs.Meaning.{lent, outcome};

use asking::find::{find as find_own, find_at as find_at_own};
use counters::numbers::{Label, Vertex};
use counters::refusals::Refusal;
use heads::heads::{Heads, head_of};
use heads::part::part_of;
use lent::slices::{Tables, View};
use licence::gate::pass_others;
use looking::through::FoundChain;

// The name of its chain (run), the regular vertex (coupling) that wears it, and the lengths to the ends.
pub fn find(
    degrees: &[u16],
    sides: &[u16],
    ends: &[u16],
    lengths: &[u32],
    volumes: &[u32],
    labels: &[u32],
    heads: Heads,
    shares: &[u16],
    sdegrees: &mut [u16],
    ssides: &mut [u16],
    sends: &mut [u16],
    slengths: &mut [u32],
    svolumes: &mut [u32],
    slabels: &mut [u32],
    house: u32,
    label: Label,
) -> Result<FoundChain, Refusal>
    ensures { outcome (tables degrees.now sides.now ends.now lengths.now volumes.now labels.now) heads shares.now (tables sdegrees.new ssides.new sends.new slengths.new svolumes.new slabels.new) [] (found_reply result)
        ≡ step (in_house house (finds label.0)) (lent (tables degrees.now sides.now ends.now lengths.now volumes.now labels.now) heads shares.now (tables sdegrees.old ssides.old sends.old slengths.old svolumes.old slabels.old)) }
{
    let register = View {
        degrees,
        sides,
        ends,
        lengths,
        volumes,
        labels,
    };
    let mut scratch = Tables {
        degrees: sdegrees,
        sides: ssides,
        ends: sends,
        lengths: slengths,
        volumes: svolumes,
        labels: slabels,
    };
    pass_others(&register, heads, shares, &mut scratch, house, false)?;
    let h = house as usize;
    let own = head_of(heads, h);
    find_own(&part_of(&register, h), own, &mut scratch, label)
}

// By a vertex. Any number is answered.
pub fn find_at(
    degrees: &[u16],
    sides: &[u16],
    ends: &[u16],
    lengths: &[u32],
    volumes: &[u32],
    labels: &[u32],
    heads: Heads,
    shares: &[u16],
    sdegrees: &mut [u16],
    ssides: &mut [u16],
    sends: &mut [u16],
    slengths: &mut [u32],
    svolumes: &mut [u32],
    slabels: &mut [u32],
    house: u32,
    vertex: Vertex,
) -> Result<FoundChain, Refusal>
    ensures { outcome (tables degrees.now sides.now ends.now lengths.now volumes.now labels.now) heads shares.now (tables sdegrees.new ssides.new sends.new slengths.new svolumes.new slabels.new) [] (found_reply result)
        ≡ step (in_house house (finds_at vertex.0)) (lent (tables degrees.now sides.now ends.now lengths.now volumes.now labels.now) heads shares.now (tables sdegrees.old ssides.old sends.old slengths.old svolumes.old slabels.old)) }
{
    let register = View {
        degrees,
        sides,
        ends,
        lengths,
        volumes,
        labels,
    };
    let mut scratch = Tables {
        degrees: sdegrees,
        sides: ssides,
        ends: sends,
        lengths: slengths,
        volumes: svolumes,
        labels: slabels,
    };
    pass_others(&register, heads, shares, &mut scratch, house, false)?;
    let h = house as usize;
    let own = head_of(heads, h);
    find_at_own(&part_of(&register, h), own, &mut scratch, vertex)
}
