// The head of a register: the counts of fittings, pipes and births, and the re-hung total.
ghost use Rattle.std.specs.Prelude.{◌≡◌};
ghost use Rattle.model.specs.Tables.{no_counts};
ghost use Rattle.counters.specs.Answers.{as_counts};

#[derive(Clone, Copy, PartialEq, Eq)]
pub struct Counts {
    pub vertices: u16,
    pub edges: u16,
    pub blocks: u16,
    pub relabellings: u32,
}

impl Counts {
    // The head of an empty register.
    pub fn none() -> Counts
        ensures { as_counts result ≡ no_counts }
    {
        Counts {
            vertices: 0,
            edges: 0,
            blocks: 0,
            relabellings: 0,
        }
    }
}
