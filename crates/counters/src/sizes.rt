// The sizes of the lent tables.
use crate::numbers::{Edge, Vertex};

// "At most 4,096 of each": a 4,097th pipe is refused.
pub const MAX_EDGES: u16 = Edge::COUNT;

// One number for each vertex, or two; one for each edge, or two.
pub const VERTICES: usize = Vertex::COUNT as usize;

pub const SIDES: usize = 2 * VERTICES;

pub const EDGES: usize = MAX_EDGES as usize;

pub const ENDS: usize = 2 * EDGES;
