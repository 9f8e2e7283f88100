// A list landed on the tables, record by record.
ghost use Rattle.std.specs.Prelude.{◌≡◌, length, ltb};
ghost use Rattle.model.specs.Basics.{max_edges};
ghost use Rattle.model.specs.Tables.{no_counts};
ghost use Rattle.counters.specs.Answers.{counts, as_counts, as_stop};
ghost use Rattle.lent.specs.Lent.{of_lent, SameLent};
ghost use Rattle.tables.specs.Meaning.{tables};
ghost use Rattle.insertion.specs.Meaning.{as_answer};
ghost use Rattle.list.specs.Reading.{as_place, record_at};
ghost use Rattle.landing.specs.Records.{step_of, stepped_in, land_record_in, reading_in, land_records_in, land_list_in};
ghost use Rattle.landing.specs.Meaning.{as_step, as_reading};

use committing::edges::land_edge;
use counters::answers::Stop;
use counters::counts::Counts;
use counters::refusals::Refusal;
use counters::sizes::MAX_EDGES;
use insertion::edges::Inserted;
use insertion::vertices::land_vertex;
use lent::slices::Tables;
use list::reader::record_at;
use list::records::{Cursor, Record, read_header};

// What stands behind a record: the end of the list; the counts, whether a ring may stand, and the next record; or the record's refusal.
// Three ways, since the end is no failure.
#[derive(Clone, Copy)]
pub enum Step {
    End,
    Landed(Inserted, Cursor),
    Refused(Refusal),
}

// The counts that a list leaves, and how far it was landed.
#[derive(Clone, Copy)]
pub struct Reading {
    pub counts: Counts,
    pub stop: Stop,
}

// A landed record goes on at the next one, a refused one stops.
pub fn step_of(inserted: Result<Inserted, Refusal>, next: Cursor) -> Step
    ensures { as_step result ≡ step_of (as_place next) (as_answer inserted) }
{
    match inserted {
        Ok(landed) => Step::Landed(landed, next),
        Err(refusal) => Step::Refused(refusal),
    }
}

fn land_record(
    register: &mut Tables,
    counts: Counts,
    limit: u16,
    list: &[u8],
    at: Cursor,
    rings: bool,
) -> Step
    ensures lent { SameLent register.new register.old }
    ensures lands { stepped_in (of_lent register.new) (as_step result)
        ≡ land_record_in (of_lent register.old)
        (as_counts counts) limit rings (record_at list.now (as_place at)) }
{
    let found = record_at(list, at);
    match found {
        Record::End => Step::End,
        Record::Vertex(next) => step_of(land_vertex(counts, rings), next),
        Record::Edge(first, second, length, volume, next) => {
            let inserted = land_edge(
                register.degrees,
                register.sides,
                register.ends,
                register.lengths,
                register.volumes,
                register.labels,
                counts,
                limit,
                first,
                second,
                length,
                volume,
                rings,
            );
            step_of(inserted, next)
        }
        Record::Refused(refusal) => Step::Refused(refusal),
    }
}

// The records from a cursor on. Each takes at least a byte, so there are no more than bytes.
// "At each landed record the head counters are updated in the caller's copy": the four numbers are lent from there.
// Whether a ring may stand is not among them: without edges none does, and each record tells what comes after it.
fn land_records(
    vertices: &mut u16,
    edges: &mut u16,
    blocks: &mut u16,
    relabellings: &mut u32,
    limit: u16,
    register: &mut Tables,
    list: &[u8],
    from: Cursor,
) -> Stop
    ensures lent { SameLent register.new register.old }
    ensures lands { reading_in (of_lent register.new)
        (counts vertices.new edges.new blocks.new relabellings.new) (as_stop result)
        ≡ land_records_in list.now (length list.now) 0
        (of_lent register.old)
        (counts vertices.old edges.old blocks.old relabellings.old) limit
        (ltb 0 edges.old) (as_place from) }
{
    let mut at = from;
    let mut rings = 0 < *edges;
    for number in 0..list.len() {
        let head = Counts {
            vertices: *vertices,
            edges: *edges,
            blocks: *blocks,
            relabellings: *relabellings,
        };
        let step = land_record(register, head, limit, list, at, rings);
        match step {
            Step::End => {
                return Stop::Whole;
            }
            Step::Landed(landed, next) => {
                let counts = landed.counts;
                *vertices = counts.vertices;
                *edges = counts.edges;
                *blocks = counts.blocks;
                *relabellings = counts.relabellings;
                rings = landed.rings;
                at = next;
            }
            Step::Refused(refusal) => {
                return Stop::Stopped(number, refusal);
            }
        }
    }
    Stop::Whole
}

// A whole list: the header, then the records. The register may not pass `limit` edges.
pub fn land_list(
    vertices: &mut u16,
    edges: &mut u16,
    blocks: &mut u16,
    relabellings: &mut u32,
    limit: u16,
    register: &mut Tables,
    list: &[u8],
) -> Stop
    ensures lent { SameLent register.new register.old }
    ensures lands { reading_in (of_lent register.new)
        (counts vertices.new edges.new blocks.new relabellings.new) (as_stop result)
        ≡ land_list_in (of_lent register.old)
        (counts vertices.old edges.old blocks.old relabellings.old) limit list.now }
{
    let header = read_header(list);
    match header {
        Ok(from) => land_records(
            vertices,
            edges,
            blocks,
            relabellings,
            limit,
            register,
            list,
            from,
        ),
        Err(refusal) => Stop::Stopped(0, refusal),
    }
}

// A whole list from empty, on tables that come cleared, without a licence. The head lies here.
// They come as slices: each of its five callers lends arrays of its own and reads them afterwards, and a struct would stand between.
pub fn grow_list(
    degrees: &mut [u16],
    sides: &mut [u16],
    ends: &mut [u16],
    lengths: &mut [u32],
    volumes: &mut [u32],
    labels: &mut [u32],
    list: &[u8],
) -> Reading
    ensures { as_reading (tables degrees.new sides.new ends.new lengths.new volumes.new labels.new) result
        ≡ land_list_in (tables degrees.old sides.old ends.old lengths.old volumes.old labels.old)
        no_counts max_edges list.now }
{
    let mut register = Tables {
        degrees,
        sides,
        ends,
        lengths,
        volumes,
        labels,
    };
    let mut vertices: u16 = 0;
    let mut edges: u16 = 0;
    let mut blocks: u16 = 0;
    let mut relabellings: u32 = 0;
    let stop = land_list(
        &mut vertices,
        &mut edges,
        &mut blocks,
        &mut relabellings,
        MAX_EDGES,
        &mut register,
        list,
    );
    Reading {
        counts: Counts {
            vertices,
            edges,
            blocks,
            relabellings,
        },
        stop,
    }
}
