ghost use Rattle.std.specs.Prelude.{◌≡◌};
ghost use Rattle.lent.specs.Lent.{of_lent, of_view, SameLent};
ghost use Rattle.tables.specs.Steps.{Tells, zeroed};

use lent::slices::{Tables, View};

pub fn clear_tables(tables: &mut Tables)
    ensures lent { SameLent tables.new tables.old }
    ensures cleared { of_lent tables.new ≡ zeroed (of_lent tables.old) }
{
    tables.degrees.fill(0);
    tables.sides.fill(0);
    tables.ends.fill(0);
    tables.lengths.fill(0);
    tables.volumes.fill(0);
    tables.labels.fill(0);
}

// Whether the two have the same lengths and the same elements.
pub fn same_tables(a: &View, b: &View) -> bool
    ensures { Tells result (of_view a.now) (of_view b.now) }
{
    a.degrees == b.degrees
        && a.sides == b.sides
        && a.ends == b.ends
        && a.lengths == b.lengths
        && a.volumes == b.volumes
        && a.labels == b.labels
}
