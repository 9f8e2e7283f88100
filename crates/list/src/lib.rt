// Reading the PNL format: the header, then record after record. Writing it: the list of a register, from its tables.
// `read_header` and `next_record` do the work, over the list's bytes and a cursor by value; `reader` is the reader that holds the list.
#![tactic(auto)]

mod bytes;
pub mod reader;
pub mod records;
pub mod writing;
