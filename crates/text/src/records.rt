// The parts of a list, in version 2: its header, vertices (document 01: fittings), an edge (pipe).
ghost use Rattle.std.specs.Prelude.{◌≡◌, replicate};
ghost use Rattle.model.specs.Format.{edge_bytes, header};
ghost use Rattle.text.specs.Pages.{page, write};

use crate::bytes::{put_u16, put_word};
use crate::writing::{put_byte, put_text};

const VERSION: u16 = 2;

const VERTEX: u8 = 0x46;

const EDGE: u8 = 0x50;

pub fn put_header(out: &mut [u8], at: usize) -> usize
    ensures { page out.new result ≡ write header (page out.old at) }
{
    let next = put_text(out, at, b"PNL");
    put_u16(out, next, VERSION)
}

pub fn put_vertices(out: &mut [u8], at: usize, n: u16) -> usize
    ensures { page out.new result ≡ write (replicate n 0x46) (page out.old at) }
{
    let mut next = at;
    for _ in 0..n {
        next = put_byte(out, next, VERTEX);
    }
    next
}

pub fn put_edge(
    out: &mut [u8],
    at: usize,
    first: u16,
    second: u16,
    length: u32,
    volume: u32,
) -> usize
    ensures { page out.new result
        ≡ write (edge_bytes (record { first = first; second = second; len = length; volume = volume })) (page out.old at) }
{
    let ends = put_byte(out, at, EDGE);
    let other = put_u16(out, ends, first);
    let millimetres = put_u16(out, other, second);
    let millilitres = put_word(out, millimetres, length);
    put_word(out, millilitres, volume)
}
