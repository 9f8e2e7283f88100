// Lists written byte by byte. Each function answers the next position.
use text::records::{put_edge, put_header, put_vertices};

// The header and n vertices.
pub fn put_start(out: &mut [u8], n: u16) -> usize {
    let next = put_header(out, 0);
    put_vertices(out, next, n)
}

// The edges 0-1, 1-2, .. of a line of n vertices, 1 mm long each, of unknown volume.
pub fn put_edges(out: &mut [u8], at: usize, n: u16) -> usize {
    let mut next = at;
    for v in 1..n {
        next = put_edge(out, next, v - 1, v, 1, 0);
    }
    next
}
