// Eight numbers, one for each house.
ghost use Rattle.std.specs.Prelude.{◌≡◌, length};
ghost use Rattle.model.specs.Basics.{sum};
ghost use Rattle.nursery.specs.Licence.{houses};
ghost use Rattle.nursery.specs.Calls.{any_some};
ghost use Rattle.sharing.specs.Meaning.{vertices_of};

use heads::heads::Heads;

pub fn sum_of(shares: &[u16]) -> u32
    requires { length shares.now ≡ houses }
    ensures { result ≡ sum shares.now }
{
    shares.iter().map(|share| *share as u32).sum()
}

// Whether a house is not empty: "no fittings".
pub fn any_landed(heads: Heads) -> bool
    ensures { result ≡ any_some (vertices_of heads) }
{
    heads.counts.iter().any(|own| own.vertices != 0)
}
