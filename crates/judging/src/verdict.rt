// The verdict on a sheet. Tables and the right text lie here, so a list and a text are all that is lent.
ghost use Rattle.std.specs.Prelude.{◌≡◌};
ghost use Rattle.model.specs.Judging.{judge as judged};
ghost use Rattle.judging.specs.Right.{as_verdict};

use crate::right::right_text;
use comparing::comparison::compare_texts;
use counters::refusals::Refusal;
use listing::listing::ROOM;

// The first wrong line (from 1), none where the sheet agrees; or the record and the refusal of a list that stops.
pub fn judge(list: &[u8], text: &[u8]) -> Result<Option<usize>, (usize, Refusal)>
    ensures { as_verdict result ≡ judged list.now text.now }
{
    let mut out = [0u8; ROOM];
    let size = right_text(list, &mut out)?;
    Ok(compare_texts(&out[..size], text))
}
