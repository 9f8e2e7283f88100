// The part of one house.
ghost use Rattle.std.specs.Prelude.{◌≡◌, ◌<◌};
ghost use Rattle.lent.specs.Lent.{of_view};
ghost use Rattle.nursery.specs.Licence.{houses};
ghost use Rattle.nursery.specs.Nursery.{tables_in};
ghost use Rattle.heads.specs.Others.{Long};

use counters::sizes::{EDGES, ENDS, SIDES, VERTICES};
use lent::slices::View;

// House h has the part from h times its own size on.
pub fn part_of<'a>(register: &'a View, h: usize) -> View<'a>
    requires { (h < houses) × Long (of_view register.now) }
    ensures { of_view result ≡ tables_in h (of_view register.now) }
{
    let v = VERTICES * h;
    let s = SIDES * h;
    let n = ENDS * h;
    let e = EDGES * h;
    View {
        degrees: &register.degrees[v..v + VERTICES],
        sides: &register.sides[s..s + SIDES],
        ends: &register.ends[n..n + ENDS],
        lengths: &register.lengths[e..e + EDGES],
        volumes: &register.volumes[e..e + EDGES],
        labels: &register.labels[v..v + VERTICES],
    }
}
