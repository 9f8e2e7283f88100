// The edges of tables of ends, lengths and volumes landed again on other tables.
ghost use Rattle.std.specs.Prelude.{◌≡◌};
ghost use Rattle.counters.specs.Answers.{as_counts};
ghost use Rattle.lent.specs.Lent.{of_lent, SameLent};
ghost use Rattle.insertion.specs.Insertion.{landing_in};
ghost use Rattle.insertion.specs.Meaning.{as_answer};
ghost use Rattle.holding.specs.Replay.{replay_in, regrow_in};

use committing::edges::land_edge;
use counters::counts::Counts;
use counters::numbers::Vertex;
use counters::refusals::Refusal;
use counters::sizes::MAX_EDGES;
use insertion::edges::Inserted;
use lent::slices::{Tables, View};
use tables::access::at;

// So many edges of the tables of ends, lengths and volumes, from number `first` on, landed on other tables; rings: a ring may stand on these.
pub fn replay(
    register: &View,
    first: u16,
    number: u16,
    from: Counts,
    rings: bool,
    tables: &mut Tables,
) -> Result<Inserted, Refusal>
    ensures lent { SameLent tables.new tables.old }
    ensures lands { landing_in (of_lent tables.new) (as_answer result)
        ≡ replay_in register.now.ends.now register.now.lengths.now register.now.volumes.now number first (of_lent tables.old) (as_counts from) rings }
{
    let mut counts = from;
    let mut ringed = rings;
    let start = first as usize;
    let end = start + (number as usize);
    for edge in start..end {
        let landed = land_edge(
            tables.degrees,
            tables.sides,
            tables.ends,
            tables.lengths,
            tables.volumes,
            tables.labels,
            counts,
            MAX_EDGES,
            at(register.ends, 2 * edge),
            at(register.ends, 2 * edge + 1),
            at(register.lengths, edge),
            at(register.volumes, edge),
            ringed,
        )?;
        counts = landed.counts;
        ringed = landed.rings;
    }
    Ok(Inserted {
        counts,
        rings: ringed,
    })
}

// As many edges as the counts say, landed on tables that come cleared, after as many vertices.
pub fn regrow(register: &View, own: Counts, tables: &mut Tables) -> Result<Inserted, Refusal>
    ensures lent { SameLent tables.new tables.old }
    ensures lands { landing_in (of_lent tables.new) (as_answer result)
        ≡ regrow_in register.now.ends.now register.now.lengths.now register.now.volumes.now (as_counts own) (of_lent tables.old) }
{
    if Vertex::COUNT < own.vertices {
        return Err(Refusal::TooManyVertices);
    }
    let from = Counts {
        vertices: own.vertices,
        edges: 0,
        blocks: 0,
        relabellings: 0,
    };
    replay(register, 0, own.edges, from, false, tables)
}
