// What is found by a label in a register.
ghost use Rattle.std.specs.Prelude.{◌≡◌, List, ℕ};
ghost use Rattle.tables.specs.Meaning.{tables};
ghost use Rattle.holders.specs.Finding.{find_in};
ghost use Rattle.questions.specs.Meaning.{found_reply};

use counters::numbers::Label;
use counters::refusals::Refusal;
use counters::sizes::SIDES;
use looking::through::FoundChain;
use questions::find::find_in;

// The array is the scratch of the search; nobody reads it after that, so the compiler leaves its clearing out. Two numbers of the head are enough: the
// others need not be kept for it (docs/SPEED.md).
pub fn find_from(
    degrees: &[u16],
    sides: &[u16],
    ends: &[u16],
    lengths: &[u32],
    labels: &[u32],
    vertices: u16,
    edges: u16,
    label: Label,
) -> Result<FoundChain, Refusal>
    ensures { (volumes : List ℕ) → found_reply result
        ≡ find_in (tables degrees.now sides.now ends.now lengths.now volumes labels.now)
        vertices edges label.0 }
{
    let mut order = [0u16; SIDES];
    find_in(
        degrees, sides, ends, lengths, labels, vertices, edges, &mut order, label,
    )
}
