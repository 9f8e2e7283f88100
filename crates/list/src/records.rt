// The header, and one record after the other.
ghost use Rattle.std.specs.Prelude.{◌≡◌, ◌+◌, ◌≤◌, drop, length};
ghost use Rattle.model.specs.Format.{edge_body, has_mark, volume_in};
ghost use Rattle.list.specs.Reading.{as_header, header_at, as_place, as_record, record_at};

use crate::bytes::{u16_at, u32_at};
use counters::refusals::Refusal;

const VERTEX_KIND: u8 = 0x46;

const EDGE_KIND: u8 = 0x50;

const PLAIN: u16 = 1;

const WITH_VOLUMES: u16 = 2;

// In bytes; a vertex record is its kind alone.
const MARK_SIZE: usize = 3;

const HEADER_SIZE: usize = 5;

const EDGE_SIZE: usize = 9;

const VOLUME_SIZE: usize = 4;

// The index of the next byte, and the list's version.
#[derive(Clone, Copy)]
pub struct Cursor {
    pub at: usize,
    pub version: u16,
}

// What stands at a cursor: the end of the list; a fitting; a pipe, its two fittings, its length and its volume; or a refusal. Four
// ways, since the end is no failure.
#[derive(Clone, Copy)]
pub enum Record {
    End,
    Vertex(Cursor),
    Edge(u16, u16, u32, u32, Cursor),
    Refused(Refusal),
}

fn has_mark(list: &[u8]) -> bool
    ensures { result ≡ has_mark list.now }
{
    if list.len() < MARK_SIZE {
        return false;
    }
    if list[0] != b'P' {
        return false;
    }
    if list[1] != b'N' {
        return false;
    }
    list[2] == b'L'
}

// The cursor behind a good header, or the header's refusal.
pub fn read_header(list: &[u8]) -> Result<Cursor, Refusal>
    ensures { as_header result ≡ header_at list.now }
{
    if !has_mark(list) {
        return Err(Refusal::NoMark);
    }
    if list.len() < HEADER_SIZE {
        return Err(Refusal::Cut);
    }
    let version = u16_at(list, MARK_SIZE);
    if version != PLAIN {
        if version != WITH_VOLUMES {
            return Err(Refusal::Version);
        }
    }
    let from = Cursor {
        at: HEADER_SIZE,
        version,
    };
    Ok(from)
}

// The bytes of an edge, its kind included.
fn edge_size(version: u16) -> usize
    ensures { (result ≡ 1 + edge_body version) × (9 ≤ result) }
{
    if version == WITH_VOLUMES {
        EDGE_SIZE + VOLUME_SIZE
    } else {
        EDGE_SIZE
    }
}

// The volume of the edge whose body starts at i; 0 in version 1, which has none.
fn volume_at(list: &[u8], i: usize, version: u16) -> u32
    requires { i + edge_body version ≤ length list.now }
    ensures { result ≡ volume_in version (drop i list.now) }
{
    if version == WITH_VOLUMES {
        return u32_at(list, i + 8);
    }
    0
}

// The kind comes before the cut: a last byte of no kind is refused as such.
pub fn next_record(list: &[u8], c: Cursor) -> Record
    ensures { as_record result ≡ record_at list.now (as_place c) }
{
    let at = c.at;
    let version = c.version;
    if list.len() <= at {
        return Record::End;
    }
    let kind = list[at];
    if kind == VERTEX_KIND {
        return Record::Vertex(Cursor {
            at: at + 1,
            version,
        });
    }
    if kind != EDGE_KIND {
        return Record::Refused(Refusal::UnknownKind);
    }
    let size = edge_size(version);
    if list.len() - at < size {
        return Record::Refused(Refusal::Cut);
    }
    let first = u16_at(list, at + 1);
    let second = u16_at(list, at + 3);
    let length = u32_at(list, at + 5);
    let volume = volume_at(list, at + 1, version);
    let next = Cursor {
        at: at + size,
        version,
    };
    Record::Edge(first, second, length, volume, next)
}
