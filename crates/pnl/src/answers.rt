// What a call from C answers: 32-bit numbers in the answer slice and the count of their bytes, or a refusal's number made negative.
ghost use Rattle.std.specs.Prelude.{◌≡◌, ◌*◌, ◌≤◌, pos, neg_ℤ, length};
ghost use Rattle.model.specs.Register.{Register};
ghost use Rattle.model.specs.FromC.{bytes_of, returns_numbers, returns_reply};
ghost use Rattle.counters.specs.Refusals.{number_of};
ghost use Rattle.questions.specs.Meaning.{found_reply};
ghost use Rattle.text.specs.Pages.{page, write};
ghost use Rattle.pnl.specs.FromC.{returned};

use counters::refusals::Refusal;
use looking::through::FoundChain;
use text::bytes::put_word;

// No `From`: it would have to stand in counters, where the number of a refusal has no sign.
pub fn refused(refusal: Refusal) -> i32
    ensures { result ≡ neg_ℤ (pos (number_of refusal)) }
{
    let number = refusal.number();
    -(number as i32)
}

// A count of bytes. A sheet's rows are counted by a u16: at most 65,535, of 24 bytes each, and no answer has more.
// So `try_from` would want an answer for a case that is none.
pub fn byte_count(n: usize) -> i32
    requires { n ≤ 24 * 65535 }
    ensures { result ≡ pos n }
{
    n as i32
}

pub fn put_words(out: &mut [u8], at: usize, numbers: &[u32]) -> usize
    ensures { page out.new result ≡ write (bytes_of numbers.now) (page out.old at) }
{
    let mut next = at;
    for n in numbers {
        next = put_word(out, next, *n);
    }
    next
}

// One, two or four numbers, or 9 where the slice has no room for all of them.
pub fn answer_numbers(answer: &mut [u8], numbers: &[u32]) -> i32
    requires { length numbers.now ≤ 4 }
    ensures { returned answer.new result ≡ returns_numbers answer.old numbers.now }
{
    let size = 4 * numbers.len();
    if answer.len() < size {
        return refused(Refusal::ShortSlice);
    }
    put_words(answer, 0, numbers);
    byte_count(size)
}

pub fn answer_found(answer: &mut [u8], found: Result<FoundChain, Refusal>) -> i32
    ensures { (register : Register) → returned answer.new result ≡ returns_reply register answer.old (found_reply found) }
{
    match found {
        Ok(chain) => {
            let run = u32::from(chain.name.0);
            let coupling = u32::from(chain.wearer.0);
            answer_numbers(answer, &[run, coupling, chain.low.0, chain.high.0])
        }
        Err(refusal) => refused(refusal),
    }
}
