// Whether a walk along a chain goes on: it ends at a singular vertex, or at home, where it has come round a ring.
ghost use Rattle.std.specs.Prelude.{◌≡◌};
ghost use Rattle.chains.specs.Chains.{goes_on_in};

use counters::numbers::Vertex;
use tables::kinds::degree_of;

// Whether a walker goes on at vertex v.
pub fn goes_on(degrees: &[u16], home: Vertex, v: Vertex) -> bool
    ensures { result ≡ goes_on_in degrees.now home.0 v.0 }
{
    if degree_of(degrees, v) != 2 {
        return false;
    }
    v.0 != home.0
}
