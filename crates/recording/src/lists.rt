// A list landed without labels, record by record.
ghost use Rattle.std.specs.Prelude.{◌≡◌, false, [], length};
ghost use Rattle.model.specs.Basics.{max_edges};
ghost use Rattle.model.specs.Tables.{no_counts};
ghost use Rattle.counters.specs.Answers.{as_counts};
ghost use Rattle.tables.specs.Meaning.{tables};
ghost use Rattle.list.specs.Reading.{as_place, record_at};
ghost use Rattle.landing.specs.Records.{stepped_in, land_record_by, land_records_by, land_list_by};
ghost use Rattle.landing.specs.Meaning.{as_step, as_reading};
ghost use Rattle.recording.specs.Unlabelled.{unlabelled_in};

use crate::unlabelled::land_unlabelled;
use counters::answers::Stop;
use counters::counts::Counts;
use insertion::vertices::land_vertex;
use landing::records::{Reading, Step, step_of};
use list::reader::record_at;
use list::records::{Cursor, Record, read_header};

fn note_record(
    degrees: &mut [u16],
    sides: &mut [u16],
    ends: &mut [u16],
    lengths: &mut [u32],
    volumes: &mut [u32],
    counts: Counts,
    list: &[u8],
    at: Cursor,
    rings: bool,
) -> Step
    ensures { stepped_in (tables degrees.new sides.new ends.new lengths.new volumes.new []) (as_step result)
        ≡ land_record_by unlabelled_in (tables degrees.old sides.old ends.old lengths.old volumes.old [])
        (as_counts counts) max_edges rings (record_at list.now (as_place at)) }
{
    let found = record_at(list, at);
    match found {
        Record::End => Step::End,
        Record::Vertex(next) => step_of(land_vertex(counts, rings), next),
        Record::Edge(first, second, length, volume, next) => {
            let inserted = land_unlabelled(
                degrees, sides, ends, lengths, volumes, counts, first, second, length, volume,
                rings,
            );
            step_of(inserted, next)
        }
        Record::Refused(refusal) => Step::Refused(refusal),
    }
}

// The records from a cursor on. Each takes at least a byte, so there are no more than bytes.
fn note_records(
    degrees: &mut [u16],
    sides: &mut [u16],
    ends: &mut [u16],
    lengths: &mut [u32],
    volumes: &mut [u32],
    list: &[u8],
    from: Cursor,
) -> Reading
    ensures { as_reading (tables degrees.new sides.new ends.new lengths.new volumes.new []) result
        ≡ land_records_by unlabelled_in list.now (length list.now) 0
        (tables degrees.old sides.old ends.old lengths.old volumes.old [])
        no_counts max_edges false (as_place from) }
{
    let mut at = from;
    let mut counts = Counts::none();
    let mut rings = false;
    for number in 0..list.len() {
        let step = note_record(
            degrees, sides, ends, lengths, volumes, counts, list, at, rings,
        );
        match step {
            Step::End => {
                let stop = Stop::Whole;
                return Reading { counts, stop };
            }
            Step::Landed(landed, next) => {
                counts = landed.counts;
                rings = landed.rings;
                at = next;
            }
            Step::Refused(refusal) => {
                let stop = Stop::Stopped(number, refusal);
                return Reading { counts, stop };
            }
        }
    }
    let stop = Stop::Whole;
    Reading { counts, stop }
}

// A whole list from empty, on tables that come cleared.
pub fn record_list(
    degrees: &mut [u16],
    sides: &mut [u16],
    ends: &mut [u16],
    lengths: &mut [u32],
    volumes: &mut [u32],
    list: &[u8],
) -> Reading
    ensures { as_reading (tables degrees.new sides.new ends.new lengths.new volumes.new []) result
        ≡ land_list_by unlabelled_in (tables degrees.old sides.old ends.old lengths.old volumes.old [])
        no_counts max_edges list.now }
{
    let header = read_header(list);
    match header {
        Ok(from) => note_records(degrees, sides, ends, lengths, volumes, list, from),
        Err(refusal) => {
            let counts = Counts::none();
            let stop = Stop::Stopped(0, refusal);
            Reading { counts, stop }
        }
    }
}
