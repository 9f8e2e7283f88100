// The gate before a call: refusal 25, then 21; for grow 25 alone, and the clearing.
ghost use Rattle.std.specs.Prelude.{◌≡◌, ◌&&◌};
ghost use Rattle.model.specs.Tables.{fits};
ghost use Rattle.admission.specs.Own.{scratch_after};
ghost use Rattle.counters.specs.Answers.{as_counts};
ghost use Rattle.lent.specs.Lent.{of_lent, of_view, SameLent};
ghost use Rattle.admission.specs.Lent.{lent};
ghost use Rattle.admission.specs.Gate.{barred, gate_refusal, zeroed_if};

use crate::sizes::sizes_fit;
use clearing::whole::clear_tables;
use counters::counts::Counts;
use counters::refusals::Refusal;
use holding::held::is_held;
use lent::slices::{Tables, View};

// Under 25 nothing is written; else scratch ends all zero.
pub fn pass_gate(register: &View, counts: Counts, scratch: &mut Tables) -> Result<(), Refusal>
    ensures lent { SameLent scratch.new scratch.old }
    ensures gates { (gate_refusal result
        ≡ barred (lent (of_view register.now) (as_counts counts) (of_lent scratch.old)))
        × (of_lent scratch.new
        ≡ scratch_after (lent (of_view register.now) (as_counts counts) (of_lent scratch.old))) }
{
    if !sizes_fit(register) {
        return Err(Refusal::WrongSize);
    }
    if !sizes_fit(&scratch.view()) {
        return Err(Refusal::WrongSize);
    }
    if !is_held(register, counts, scratch) {
        return Err(Refusal::NotGrown);
    }
    Ok(())
}

// Whether the sizes are right. If so, register and scratch end all zero, else nothing is written.
pub fn clear_if_fit(register: &mut Tables, scratch: &mut Tables) -> bool
    ensures lent { SameLent register.new register.old × SameLent scratch.new scratch.old }
    ensures clears { (result ≡ (fits (of_lent register.old) && fits (of_lent scratch.old)))
        × (of_lent register.new ≡ zeroed_if result (of_lent register.old))
        × (of_lent scratch.new ≡ zeroed_if result (of_lent scratch.old)) }
{
    if !sizes_fit(&register.view()) {
        return false;
    }
    if !sizes_fit(&scratch.view()) {
        return false;
    }
    clear_tables(register);
    clear_tables(scratch);
    true
}
