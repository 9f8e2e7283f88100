// The other pipes, landed anew.
ghost use Rattle.std.specs.Prelude.{◌≡◌, ◌<◌};
ghost use Rattle.counters.specs.Answers.{as_counts};
ghost use Rattle.lent.specs.Lent.{of_lent, SameLent};
ghost use Rattle.insertion.specs.Insertion.{landing_in};
ghost use Rattle.insertion.specs.Meaning.{as_answer};
ghost use Rattle.rest.specs.Rest.{rest_in};

use counters::counts::Counts;
use counters::refusals::Refusal;
use holding::replay::replay;
use insertion::edges::Inserted;
use lent::slices::{Tables, View};

// The edges before `edge` and then those behind it, on tables that come cleared, after as many vertices as the counts say.
pub fn land_rest(
    register: &View,
    own: Counts,
    edge: u16,
    tables: &mut Tables,
) -> Result<Inserted, Refusal>
    requires { edge < own.edges }
    ensures lent { SameLent tables.new tables.old }
    ensures lands { landing_in (of_lent tables.new) (as_answer result)
        ≡ rest_in register.now.ends.now register.now.lengths.now register.now.volumes.now (as_counts own) edge (of_lent tables.old) }
{
    let from = Counts {
        vertices: own.vertices,
        edges: 0,
        blocks: 0,
        relabellings: 0,
    };
    let before = replay(register, 0, edge, from, false, tables)?;
    let behind = edge + 1;
    replay(
        register,
        behind,
        own.edges - behind,
        before.counts,
        before.rings,
        tables,
    )
}
