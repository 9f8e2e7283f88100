// The landing of one vertex: refusal 22, then the counts. No table changes.
ghost use Rattle.std.specs.Prelude.{◌≡◌};
ghost use Rattle.counters.specs.Answers.{as_counts};
ghost use Rattle.insertion.specs.Insertion.{land_vertex_in};
ghost use Rattle.insertion.specs.Meaning.{as_answer};

use crate::edges::Inserted;
use counters::counts::Counts;
use counters::numbers::Vertex;
use counters::refusals::Refusal;
use tables::access::one_more16;

pub fn land_vertex(counts: Counts, rings: bool) -> Result<Inserted, Refusal>
    ensures { as_answer result ≡ land_vertex_in (as_counts counts) rings }
{
    if Vertex::COUNT <= counts.vertices {
        return Err(Refusal::TooManyVertices);
    }
    let counts = Counts {
        vertices: one_more16(counts.vertices),
        edges: counts.edges,
        blocks: counts.blocks,
        relabellings: counts.relabellings,
    };
    Ok(Inserted { counts, rings })
}
