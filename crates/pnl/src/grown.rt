// A list grown in arrays of its own, and the answer to a question about the register that it leaves.
ghost use Rattle.std.specs.Prelude.{◌≡◌, List, ℕ};
ghost use Rattle.model.specs.Register.{Register};
ghost use Rattle.model.specs.FromC.{from_c, returns_reply};
ghost use Rattle.model.specs.Notions.{HeldOf};
ghost use Rattle.counters.specs.Answers.{as_counts};
ghost use Rattle.tables.specs.Meaning.{stored, tables};
ghost use Rattle.pnl.specs.Questions.{as_question};
ghost use Rattle.pnl.specs.FromC.{returned};

use crate::answers::{answer_found, refused};
use crate::asked::{Question, label_asked};
use crate::finding::find_from;
use counters::answers::Stop;
use counters::counts::Counts;
use counters::refusals::Refusal;
use counters::sizes::{EDGES, ENDS, SIDES, VERTICES};
use landing::records::grow_list;

// The tables are a register's, so there is no gate to pass. Find is called from one place, by tag and by fitting: the compiler then makes it part
// of the call, and the growing before it is the faster for it.
fn answer_question(
    answer: &mut [u8],
    degrees: &[u16],
    sides: &[u16],
    ends: &[u16],
    lengths: &[u32],
    labels: &[u32],
    counts: Counts,
    question: Question,
) -> i32
    ensures { (volumes : List ℕ) (register : Register)
        → HeldOf (stored (tables degrees.now sides.now ends.now lengths.now volumes labels.now) (as_counts counts)) register
        → returned answer.new result ≡ returns_reply register answer.old (as_question question register) }
{
    let Some(label) = label_asked(labels, question) else {
        return refused(Refusal::NotRegular);
    };
    let found = find_from(
        degrees,
        sides,
        ends,
        lengths,
        labels,
        counts.vertices,
        counts.edges,
        label,
    );
    answer_found(answer, found)
}

// The tables of a call are its own, all zero at the start.
pub fn answer_call(list: &[u8], question: Question, answer: &mut [u8]) -> i32
    ensures { returned answer.new result ≡ from_c (as_question question) list.now answer.old }
{
    let mut degrees = [0u16; VERTICES];
    let mut sides = [0u16; SIDES];
    let mut ends = [0u16; ENDS];
    let mut lengths = [0u32; EDGES];
    let mut volumes = [0u32; EDGES];
    let mut labels = [0u32; VERTICES];
    let reading = grow_list(
        &mut degrees,
        &mut sides,
        &mut ends,
        &mut lengths,
        &mut volumes,
        &mut labels,
        list,
    );
    let counts = reading.counts;
    let stop = reading.stop;
    match stop {
        Stop::Whole => answer_question(
            answer, &degrees, &sides, &ends, &lengths, &labels, counts, question,
        ),
        Stop::Stopped(record, refusal) => refused(refusal),
    }
}
