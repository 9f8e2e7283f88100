// Write: the list of the register (document 02, S-1) to the front of a lent slice of bytes, or 9.
ghost use Rattle.std.specs.Prelude.{◌≡◌, ◌+◌, ◌*◌};
ghost use Rattle.counters.specs.Answers.{as_counts};
ghost use Rattle.questions.specs.Meaning.{written_reply};
ghost use Rattle.questions.specs.Answering.{answered, written_in};

use counters::counts::Counts;
use counters::refusals::Refusal;
use list::writing::put_list;

// A header of 5 bytes, a byte a vertex, 13 bytes an edge.
fn list_bytes(counts: Counts) -> u32
    ensures { result ≡ 5 + (as_counts counts).vertices + 13 * (as_counts counts).edges }
{
    5 + (counts.vertices as u32) + 13 * (counts.edges as u32)
}

// The bytes are counted first: nothing is written to a slice that is too short.
pub fn write_in(
    ends: &[u16],
    lengths: &[u32],
    volumes: &[u32],
    counts: Counts,
    out: &mut [u8],
) -> Result<u32, Refusal>
    ensures { answered out.new (written_reply result)
        ≡ written_in ends.now lengths.now volumes.now (as_counts counts) out.old }
{
    let size = list_bytes(counts);
    if out.len() < (size as usize) {
        return Err(Refusal::ShortSlice);
    }
    put_list(out, ends, lengths, volumes, counts);
    Ok(size)
}
