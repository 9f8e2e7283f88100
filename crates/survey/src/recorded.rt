// A list recorded in arrays of the call's own, and the answer that is worked out from them.
ghost use Rattle.std.specs.Prelude.{◌≡◌, []};
ghost use Rattle.model.specs.FromC.{from_c};
ghost use Rattle.counters.specs.Answers.{as_counts};
ghost use Rattle.tables.specs.Meaning.{tables};
ghost use Rattle.questions.specs.Measure.{Measurable};
ghost use Rattle.pnl.specs.FromC.{returned};
ghost use Rattle.survey.specs.Surveys.{as_survey, survey_in};

use crate::distances::{answer_distance, measure_checked};
use crate::sheet::answer_sheet;
use counters::answers::Stop;
use counters::counts::Counts;
use counters::sizes::{EDGES, ENDS, SIDES, VERTICES};
use pnl::answers::refused;
use recording::lists::record_list;

// What may be asked where no tag is hung: two kinds of question.
#[derive(Clone, Copy)]
pub enum Survey {
    Sheet,
    Distance(u32, u32),
}

// Over tables that a list was recorded in.
fn answer_survey(
    answer: &mut [u8],
    degrees: &[u16],
    sides: &[u16],
    ends: &[u16],
    lengths: &[u32],
    volumes: &[u32],
    counts: Counts,
    survey: Survey,
) -> i32
    requires { Measurable ends.now lengths.now (as_counts counts) }
    ensures { returned answer.new result
        ≡ survey_in survey (tables degrees.now sides.now ends.now lengths.now volumes.now [])
        (as_counts counts) answer.old }
{
    match survey {
        Survey::Sheet => answer_sheet(answer, degrees, sides, ends, lengths, volumes, counts.edges),
        Survey::Distance(from, to) => {
            let measured = measure_checked(ends, lengths, counts, from, to);
            answer_distance(answer, measured)
        }
    }
}

// The tables of a call are its own, all zero at the start.
pub fn answer_recorded(list: &[u8], survey: Survey, answer: &mut [u8]) -> i32
    ensures { returned answer.new result ≡ from_c (as_survey survey) list.now answer.old }
{
    let mut degrees = [0u16; VERTICES];
    let mut sides = [0u16; SIDES];
    let mut ends = [0u16; ENDS];
    let mut lengths = [0u32; EDGES];
    let mut volumes = [0u32; EDGES];
    let reading = record_list(
        &mut degrees,
        &mut sides,
        &mut ends,
        &mut lengths,
        &mut volumes,
        list,
    );
    let counts = reading.counts;
    let stop = reading.stop;
    match stop {
        Stop::Whole => answer_survey(
            answer, &degrees, &sides, &ends, &lengths, &volumes, counts, survey,
        ),
        Stop::Stopped(record, refusal) => refused(refusal),
    }
}
