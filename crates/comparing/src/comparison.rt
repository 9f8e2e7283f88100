// The first line in which two texts differ. Lines are not taken apart: the first wrong one is behind as many line ends as the texts have in
// common at their beginning.
ghost use Rattle.std.specs.Prelude.{◌≡◌, ◌==◌, count_by, length, take, take_while, zip};
ghost use Rattle.model.specs.Judging.{compare_texts};
ghost use Rattle.comparing.specs.Beginnings.{as_comparison};

// The byte that ends a line.
const LINE_END: u8 = 10;

// How many bytes two texts have in common at their beginning.
fn common_bytes(right: &[u8], text: &[u8]) -> usize
    ensures { result ≡ length (take_while (λ p. p.0 == p.1) (zip right.now text.now)) }
{
    right.iter().zip(text).take_while(|(a, b)| a == b).count()
}

// The line ends among the first n bytes.
fn line_ends(text: &[u8], n: usize) -> usize
    ensures { result ≡ count_by (λ b. b == LINE_END) (take n text.now) }
{
    text.iter().take(n).filter(|b| **b == LINE_END).count()
}

// The first line that differs, counted from 1; none where the texts are the same.
pub fn compare_texts(right: &[u8], text: &[u8]) -> Option<usize>
    ensures { as_comparison result ≡ compare_texts right.now text.now }
{
    let same = common_bytes(right, text);
    let line = 1 + line_ends(right, same);
    if same < right.len() {
        return Some(line);
    }
    if same < text.len() {
        return Some(line);
    }
    None
}
