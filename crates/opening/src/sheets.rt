// A sheet that is opened and then fetched line by line, with landings allowed between (document 02, S-6).
ghost use Rattle.std.specs.Prelude.{◌≡◌, [], ℕ};
ghost use Rattle.nursery.specs.Calls.{fetches, opens};
ghost use Rattle.admission.specs.Own.{own_step};
ghost use Rattle.counters.specs.Answers.{as_counts};
ghost use Rattle.lent.specs.Lent.{of_lent, of_view, SameLent};
ghost use Rattle.fetching.specs.Meaning.{line_reply};
ghost use Rattle.admission.specs.Lent.{lent, outcome};
ghost use Rattle.opening.specs.Meaning.{as_sheet, fetched_reply, opened_reply};

use admission::gate::pass_gate;
use chains::rows::Row;
use counters::counts::Counts;
use counters::refusals::Refusal;
use fetching::cleared::line_cleared;
use fetching::lines::Line;
use lent::slices::{Tables, View};

// The counts of vertices and edges (document 01: fittings and pipes) at the opening, the place of the next line, and the house's count of
// removals at the opening (document 02, S-11). It is its caller's to keep, and no part of the register: landing goes on meanwhile, and any
// number of sheets may be open.
#[derive(Clone, Copy)]
pub struct OpenSheet {
    pub vertices: u16,
    pub edges: u16,
    pub place: u16,
    pub removals: u32,
}

// A line, and the sheet at the next one; or the sheet as it was, which is done. Either way there is a sheet, so the line alone is no Option.
#[derive(Clone, Copy)]
pub enum Fetched {
    Line(Row, OpenSheet),
    Done(OpenSheet),
}

impl OpenSheet {
    // 25, then 21.
    pub fn open(
        register: &View,
        counts: Counts,
        scratch: &mut Tables,
        removals: u32,
    ) -> Result<OpenSheet, Refusal>
        ensures lent { SameLent scratch.new scratch.old }
        ensures answers { (limit : ℕ) → outcome (of_view register.now) (as_counts counts) (of_lent scratch.new) [] (opened_reply result)
            ≡ own_step limit removals opens (lent (of_view register.now) (as_counts counts) (of_lent scratch.old)) }
    {
        pass_gate(register, counts, scratch)?;
        Ok(OpenSheet {
            vertices: counts.vertices,
            edges: counts.edges,
            place: 0,
            removals,
        })
    }

    // A line moves the sheet on; nothing else does.
    fn gives(self, line: Line) -> Result<Fetched, Refusal>
        ensures { fetched_reply result ≡ line_reply (as_sheet self) line }
    {
        match line {
            Line::Row(row, next) => Ok(Fetched::Line(
                row,
                OpenSheet {
                    vertices: self.vertices,
                    edges: self.edges,
                    place: next,
                    removals: self.removals,
                },
            )),
            Line::Past => Ok(Fetched::Done(self)),
            Line::Beyond => Err(Refusal::Beyond),
        }
    }

    // 25, 21, 39, then 33.
    pub fn fetch(
        self,
        register: &View,
        counts: Counts,
        scratch: &mut Tables,
        removals: u32,
    ) -> Result<Fetched, Refusal>
        ensures lent { SameLent scratch.new scratch.old }
        ensures answers { (limit : ℕ) → outcome (of_view register.now) (as_counts counts) (of_lent scratch.new) [] (fetched_reply result)
            ≡ own_step limit removals (fetches (as_sheet self)) (lent (of_view register.now) (as_counts counts) (of_lent scratch.old)) }
    {
        pass_gate(register, counts, scratch)?;
        if self.removals != removals {
            return Err(Refusal::Ended);
        }
        let line = line_cleared(
            register,
            counts,
            scratch,
            self.vertices,
            self.edges,
            self.place,
        );
        self.gives(line)
    }
}
