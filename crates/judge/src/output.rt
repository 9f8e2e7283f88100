// What the program writes, built in lent slices: from the list alone, and from the right text and the sheet.
ghost use Rattle.std.specs.Prelude.{◌≡◌, ◌≤◌, length, take};
ghost use Rattle.model.specs.Judging.{compare_texts};
ghost use Rattle.io.specs.Counts.{IsPrefixLen as Counted};
ghost use Rattle.listing.specs.Listing.{room_bytes};
ghost use Rattle.judge.specs.Output.{awaited, as_awaited, size_of, verdict_line, line_bytes};

use comparing::comparison::compare_texts;
use judging::right::right_text;
use streams::reading::MAX_LIST;
use text::lines::put_stopped;
use text::writing::{put_field, put_text};

// Room for the line of a verdict.
pub const LINE: usize = 40;

const NEWLINE: u8 = 10;

// So many bytes of the slice: the text that a sheet has to be, or the line of a list for which there is none.
pub fn expect_sheet(list: &[u8], out: &mut [u8]) -> Result<usize, usize>
    requires { room_bytes ≤ length out.old }
    ensures { Counted (size_of result) out.new × (as_awaited result out.new ≡ awaited list.now) }
{
    if MAX_LIST < list.len() {
        let long = put_text(out, 0, b"too long\n");
        return Err(long);
    }
    match right_text(list, out) {
        Ok(size) => Ok(size),
        Err((record, refusal)) => {
            let number = refusal.number();
            let line = put_stopped(out, 0, record as u64, number as u64);
            Err(line)
        }
    }
}

pub fn verdict_line(right: &[u8], sheet: &[u8], out: &mut [u8]) -> usize
    requires { line_bytes ≤ length out.old }
    ensures { Counted result out.new × (take result out.new ≡ verdict_line (compare_texts right.now sheet.now)) }
{
    match compare_texts(right, sheet) {
        Some(line) => {
            let next = put_text(out, 0, b"line ");
            put_field(out, next, line as u64, NEWLINE)
        }
        None => put_text(out, 0, b"agrees\n"),
    }
}
