// Refusal 25: the sizes of lent tables.
ghost use Rattle.std.specs.Prelude.{◌≡◌};
ghost use Rattle.model.specs.Tables.{fits};
ghost use Rattle.lent.specs.Lent.{of_view};

use counters::sizes::{EDGES, ENDS, SIDES, VERTICES};
use lent::slices::View;

pub fn sizes_fit(t: &View) -> bool
    ensures { result ≡ fits (of_view t.now) }
{
    if t.degrees.len() != VERTICES {
        return false;
    }
    if t.sides.len() != SIDES {
        return false;
    }
    if t.ends.len() != ENDS {
        return false;
    }
    if t.lengths.len() != EDGES {
        return false;
    }
    if t.volumes.len() != EDGES {
        return false;
    }
    t.labels.len() == VERTICES
}
