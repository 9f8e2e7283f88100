// Refusal 25: the sizes of the tables and shares of eight houses.
ghost use Rattle.std.specs.Prelude.{◌≡◌};
ghost use Rattle.lent.specs.Lent.{of_view};
ghost use Rattle.heads.specs.Others.{eight_fit};

use counters::sizes::{EDGES, ENDS, SIDES, VERTICES};
use lent::slices::View;

pub const HOUSES: usize = 8;

// Each table is eight times as long as that of one house, and there are eight shares.
pub fn houses_fit(register: &View, shares: &[u16]) -> bool
    ensures { result ≡ eight_fit (of_view register.now) shares.now }
{
    if register.degrees.len() != HOUSES * VERTICES {
        return false;
    }
    if register.sides.len() != HOUSES * SIDES {
        return false;
    }
    if register.ends.len() != HOUSES * ENDS {
        return false;
    }
    if register.lengths.len() != HOUSES * EDGES {
        return false;
    }
    if register.volumes.len() != HOUSES * EDGES {
        return false;
    }
    if register.labels.len() != HOUSES * VERTICES {
        return false;
    }
    shares.len() == HOUSES
}
