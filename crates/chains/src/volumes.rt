// The volume of a chain, edge by edge.
ghost use Rattle.std.specs.Prelude.{◌≡◌, get_or};
ghost use Rattle.chains.specs.Chains.{plus_volume32};

use counters::numbers::{Edge, Millilitres};
use tables::access::add32;
use tables::kinds::volume_of;

// What is known so far with the volume of one edge more; unknown where one of them is. A sum of volumes is a volume: of so many edges,
// where `Millilitres::new` gives that of one.
pub fn volume_onto(volumes: &[u32], known: Millilitres, e: Edge) -> Millilitres
    ensures { result.0 ≡ plus_volume32 known.0 (get_or volumes.now e.0 0) }
{
    if known.0 == Millilitres::UNKNOWN {
        return known;
    }
    let own = volume_of(volumes, e);
    if own.0 == Millilitres::UNKNOWN {
        return own;
    }
    Millilitres(add32(known.0, own.0))
}
