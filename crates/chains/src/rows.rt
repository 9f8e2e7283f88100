// The row of one chain, which is walked once, for its row and its marks.
ghost use Rattle.std.specs.Prelude.{◌≡◌, [], ◌∷◌, ◌+◌, min, max};
ghost use Rattle.tables.specs.Steps.{sum32};
ghost use Rattle.chains.specs.Chains.{mark_chain_in, row_in};
ghost use Rattle.chains.specs.Answers.{row_of};

use crate::marks::{WalkEnd, walk_marking};
use counters::numbers::{Edge, Millilitres, Millimetres, Vertex};
use tables::kinds::{degree_of, first_end, length_of, second_end, volume_of};
use tables::steps::add_lengths;

// A chain's name, its end with the lower number, its other end, its regular vertices, its length, its volume.
#[derive(Clone, Copy)]
pub struct Row {
    pub name: Edge,
    pub lower: Vertex,
    pub other: Vertex,
    pub inner: u32,
    pub length: Millimetres,
    pub volume: Millilitres,
}

// The numbers of a row.
pub const ROW: usize = 6;

// The row of a ring, by a walk round it from one end of its edge to the other, which began with that edge's volume.
fn ring_row(name: Edge, own: Millimetres, on: WalkEnd) -> Row
    ensures { row_of result ≡ name.0 ∷ on.lowest.0 ∷ on.lowest.0 ∷ (1 + on.inner) ∷ sum32 own.0 on.length.0 ∷ on.volume.0 ∷ [] }
{
    let lowest = on.lowest;
    let volume = on.volume;
    Row {
        name,
        lower: lowest,
        other: lowest,
        inner: 1 + u32::from(on.inner),
        length: add_lengths(own, on.length),
        volume,
    }
}

// The row of a chain, by the walks from its edge to its ends; the walk back began with the volume that the walk on gave.
fn open_row(name: Edge, own: Millimetres, back: WalkEnd, on: WalkEnd) -> Row
    ensures { row_of result ≡ name.0 ∷ min back.at.0 on.at.0 ∷ max back.at.0 on.at.0 ∷ (back.inner + on.inner)
        ∷ sum32 back.length.0 (sum32 own.0 on.length.0) ∷ back.volume.0 ∷ [] }
{
    let volume = back.volume;
    Row {
        name,
        lower: back.at.min(on.at),
        other: back.at.max(on.at),
        inner: u32::from(back.inner) + u32::from(on.inner),
        length: add_lengths(back.length, add_lengths(own, on.length)),
        volume,
    }
}

// The row of the chain that has this name; all its other edges get marks.
pub fn take_row(
    degrees: &[u16],
    sides: &[u16],
    ends: &[u16],
    lengths: &[u32],
    volumes: &[u32],
    marks: &mut [u16],
    edge: Edge,
    fuel: u16,
) -> Row
    ensures { (row_of result ≡ row_in degrees.now sides.now ends.now lengths.now volumes.now fuel edge.0)
        × (marks.new
        ≡ mark_chain_in degrees.now sides.now ends.now fuel marks.old edge.0) }
{
    let first = first_end(ends, edge);
    let second = second_end(ends, edge);
    let known = volume_of(volumes, edge);
    let on = walk_marking(
        degrees, sides, ends, lengths, volumes, marks, edge, second, first, known, fuel,
    );
    let own = length_of(lengths, edge);
    if degree_of(degrees, on.at) == 2 {
        return ring_row(edge, own, on);
    }
    let back = walk_marking(
        degrees, sides, ends, lengths, volumes, marks, edge, first, on.at, on.volume, fuel,
    );
    open_row(edge, own, back, on)
}
