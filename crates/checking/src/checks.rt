// The refusals of an edge, in their order. They look at no table.
ghost use Rattle.std.specs.Prelude.{◌≡◌};
ghost use Rattle.counters.specs.Answers.{as_counts};
ghost use Rattle.counters.specs.Numbers.{volume_of};
ghost use Rattle.checking.specs.Checks.{stored_volume, check_in};
ghost use Rattle.checking.specs.Meaning.{as_checked, as_volume};

use counters::counts::Counts;
use counters::numbers::{CheckedMillilitres, Millilitres, Millimetres, Vertex};
use counters::refusals::Refusal;
use counters::sizes::MAX_EDGES;

// A volume as the register has it, if it is within its bounds: "0 means unknown in the register".
fn check_volume(volume: u32) -> Option<Millilitres>
    ensures { as_volume result ≡ stored_volume (volume_of volume) }
{
    match Millilitres::new(volume) {
        CheckedMillilitres::Known(known) => Some(known),
        CheckedMillilitres::Unknown => Some(Millilitres(Millilitres::UNKNOWN)),
        CheckedMillilitres::OutOfRange => None,
    }
}

// An edge (document 01: pipe) that passed: its ends, length and volume.
#[derive(Clone, Copy)]
pub struct Checked {
    pub first: Vertex,
    pub second: Vertex,
    pub length: Millimetres,
    pub volume: Millilitres,
}

// The first of refusals 5, 6, 7, 31, 23 and 36 that holds of an edge, or what passed where none does. Document 01's order, with 31 just after 7 and 36 just after 23. A register may not pass `limit` edges; without a licence it is MAX_EDGES,
// and 36 never holds. What a record says is a plain number until it is tested here.
pub fn check_edge(
    counts: Counts,
    limit: u16,
    first: u16,
    second: u16,
    length: u32,
    volume: u32,
) -> Result<Checked, Refusal>
    ensures { as_checked result ≡ check_in (as_counts counts) limit (record { first = first; second = second; len = length; volume = volume }) }
{
    let Some(a) = Vertex::landed(first, counts.vertices) else {
        return Err(Refusal::NotLanded);
    };
    let Some(b) = Vertex::landed(second, counts.vertices) else {
        return Err(Refusal::NotLanded);
    };
    if first == second {
        return Err(Refusal::SameVertex);
    }
    let Some(millimetres) = Millimetres::new(length) else {
        return Err(Refusal::Length);
    };
    let Some(millilitres) = check_volume(volume) else {
        return Err(Refusal::Volume);
    };
    if MAX_EDGES <= counts.edges {
        return Err(Refusal::TooManyEdges);
    }
    if limit <= counts.edges {
        return Err(Refusal::OverLimit);
    }
    Ok(Checked {
        first: a,
        second: b,
        length: millimetres,
        volume: millilitres,
    })
}
