// What becomes of the chains.
ghost use Rattle.std.specs.Prelude.{◌≡◌, true, false};

// What an edge makes of the chains: the number of blocks (document 01: births) then, and of the vertices relabelled (re-hung); and
// whether it closes a ring.
#[derive(Clone, Copy)]
pub struct ChainChange {
    pub blocks: u16,
    pub relabellings: u32,
    pub ring: bool,
}

impl ChainChange {
    pub fn new(blocks: u16, relabellings: u32) -> ChainChange
        ensures { (result.blocks ≡ blocks) × (result.relabellings ≡ relabellings) × (result.ring ≡ false) }
    {
        ChainChange {
            blocks,
            relabellings,
            ring: false,
        }
    }

    // Closing relabels nothing.
    pub fn closing(blocks: u16) -> ChainChange
        ensures { (result.blocks ≡ blocks) × (result.relabellings ≡ 0) × (result.ring ≡ true) }
    {
        ChainChange {
            blocks,
            relabellings: 0,
            ring: true,
        }
    }
}
