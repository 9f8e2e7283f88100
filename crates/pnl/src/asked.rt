// The label that C asks for, in numbers of 32 bits: by itself, or through the vertex that wears it.
ghost use Rattle.std.specs.Prelude.{◌≡◌, List, ℕ};
ghost use Rattle.std.proofs.Math.Option.{some};
ghost use Rattle.model.specs.Register.{Register};
ghost use Rattle.model.specs.Queries.{find_at};
ghost use Rattle.model.specs.Tables.{Counts};
ghost use Rattle.model.specs.Notions.{HeldOf};
ghost use Rattle.counters.specs.Numbers.{as_label};
ghost use Rattle.tables.specs.Meaning.{stored, tables};
ghost use Rattle.pnl.specs.Questions.{as_question, asked};

use counters::numbers::{Label, Vertex};
use tables::kinds::label_of;

// What may be asked of the tags: two kinds of question.
#[derive(Clone, Copy)]
pub enum Question {
    Find(u32),
    FindAt(u32),
}

// Every number of 32 bits is a label.
fn label_given(label: u32) -> Option<Label>
    ensures { as_label result ≡ some label }
{
    Label::new(label as u64)
}

// That of a vertex. A number above the largest vertex has none, in whatever register.
fn label_at(labels: &[u32], vertex: u32) -> Option<Label>
    ensures { (degrees sides ends lengths volumes : List ℕ) (counts : Counts) (register : Register)
        → HeldOf (stored (tables degrees sides ends lengths volumes labels.now) counts) register → asked result register ≡ find_at register vertex }
{
    let v = Vertex::new(vertex)?;
    Some(label_of(labels, v))
}

// The labels are a register's. Where there is none to look for, the answer is 8.
pub fn label_asked(labels: &[u32], question: Question) -> Option<Label>
    ensures { (degrees sides ends lengths volumes : List ℕ) (counts : Counts) (register : Register)
        → HeldOf (stored (tables degrees sides ends lengths volumes labels.now) counts) register → asked result register ≡ as_question question register }
{
    match question {
        Question::Find(label) => label_given(label),
        Question::FindAt(vertex) => label_at(labels, vertex),
    }
}
