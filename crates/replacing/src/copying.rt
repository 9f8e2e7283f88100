// Tables copied over tables of the same sizes.
ghost use Rattle.std.specs.Prelude.{◌≡◌, length};
ghost use Rattle.model.specs.Tables.{sizes};
ghost use Rattle.lent.specs.Lent.{of_lent, of_view, SameLent};

use lent::slices::{Tables, View};

fn copy<T: Copy>(xs: &[T], ys: &mut [T])
    ensures { length xs.now ≡ length ys.old → ys.new ≡ xs.now }
{
    if xs.len() == ys.len() {
        ys.copy_from_slice(xs);
    }
}

pub fn copy_tables(from: &View, to: &mut Tables)
    ensures lent { SameLent to.new to.old }
    ensures copied { sizes (of_view from.now) ≡ sizes (of_lent to.old) → of_lent to.new ≡ of_view from.now }
{
    copy(from.degrees, to.degrees);
    copy(from.sides, to.sides);
    copy(from.ends, to.ends);
    copy(from.lengths, to.lengths);
    copy(from.volumes, to.volumes);
    copy(from.labels, to.labels);
}
