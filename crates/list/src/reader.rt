// A list reader: the lent list along with the next byte's index, and the version by which its records are read. Its functions are thin,
// `next_record` does the work. Whoever has a list and a cursor calls `record_at`.
ghost use Rattle.std.specs.Prelude.{◌≡◌};
ghost use Rattle.list.specs.Reading.{place, as_place, as_record, record_at};

use crate::records::{Cursor, Record, next_record};

#[derive(Drop)]
pub struct Reader<'a> {
    pub list: &'a [u8],
    pub at: usize,
    pub version: u16,
}

impl<'a> Reader<'a> {
    pub fn new(list: &'a [u8], at: usize, version: u16) -> Reader<'a>
        ensures { (result.list ≡ list.entry) × (result.at ≡ at) × (result.version ≡ version) }
    {
        Reader { list, at, version }
    }

    // The record at the index, which says where the next one stands.
    pub fn next(self) -> Record
        ensures { as_record result ≡ record_at self.entry.list.now (place self.entry.at self.entry.version) }
    {
        next_record(
            self.list,
            Cursor {
                at: self.at,
                version: self.version,
            },
        )
    }
}

pub fn record_at(list: &[u8], c: Cursor) -> Record
    ensures { as_record result ≡ record_at list.now (as_place c) }
{
    Reader::new(list, c.at, c.version).next()
}
