// "the larger of share and pipes, summed over them".
ghost use Rattle.std.specs.Prelude.{◌≡◌, max, ◌<◌, length, get_or, set};
ghost use Rattle.model.specs.Basics.{sum};
ghost use Rattle.nursery.specs.Licence.{houses, reserves};
ghost use Rattle.heads.specs.Meaning.{edges_of};

use crate::heads::{Heads, head_of};
use tables::access::at;

pub fn larger(share: u16, edges: u16) -> u32
    ensures { (result ≡ max share edges) × (result < 65536) }
{
    u32::from(share.max(edges))
}

// What house h keeps of the licence: nothing, if it is the one that is asked about.
fn kept_by(heads: Heads, shares: &[u16], h: usize, house: u32) -> u32
    requires { (h < houses) × (length shares.now ≡ houses) }
    ensures { (result ≡ get_or (set (reserves shares.now (edges_of heads)) house 0) h 0) × (result < 65536) }
{
    if h as u32 == house {
        return 0;
    }
    let own = head_of(heads, h);
    larger(at(shares, h), own.edges)
}

// What all houses but one keep of the licence.
pub fn others_reserve(heads: Heads, shares: &[u16], house: u32) -> u32
    requires { length shares.now ≡ houses }
    ensures { (result ≡ sum (set (reserves shares.now (edges_of heads)) house 0)) × (result < 524288) }
{
    let mut sum: u32 = 0;
    for h in 0..8 {
        sum += kept_by(heads, shares, h, house);
    }
    sum
}
