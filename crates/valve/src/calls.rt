// What outsiders call: a record arrives; which recipe is at the valve. Both look for 25 and 21 first, in one pass over the records, and
// ask nothing of their callers.
ghost use Rattle.std.specs.Prelude.{◌≡◌};
ghost use Rattle.valve.specs.Window.{record_of, sizes_fit};
ghost use Rattle.valve.specs.Calls.{outcome, arrives, asks};
ghost use Rattle.valve.specs.Steps.{gate};
ghost use Rattle.valve.specs.Answers.{as_window, gate_refusal, head_after, arrived_reply, found_reply};

use crate::answers::{Head, Refusal};
use crate::numbers::{Amount, Minute, Recipe};
use crate::window::{is_held, put_record, recipe_back};

fn sizes_fit(recipes: &[u16], amounts: &[u32]) -> bool
    ensures { result ≡ sizes_fit recipes.now amounts.now }
{
    recipes.len() == (Minute::COUNT as usize) && amounts.len() == (Minute::COUNT as usize)
}

// 25, then 21.
fn gate(recipes: &[u16], amounts: &[u32], head: Head) -> Result<(), Refusal>
    ensures { gate_refusal result ≡ gate (as_window recipes.now amounts.now head) }
{
    if !sizes_fit(recipes, amounts) {
        return Err(Refusal::WrongSize);
    }
    if !is_held(recipes, amounts, head) {
        return Err(Refusal::NotFromArrivals);
    }
    Ok(())
}

// A record of this minute. The head comes by value; where the record is taken, the answer is the head from now on, which the caller keeps
// with the tables, and where it is refused nothing has changed.
pub fn arrive(
    recipes: &mut [u16],
    amounts: &mut [u32],
    head: Head,
    recipe: Recipe,
    amount: Amount,
) -> Result<Head, Refusal>
    ensures { outcome (as_window recipes.new amounts.new (head_after head result)) (arrived_reply result)
        ≡ arrives (record_of recipe.0 amount.0) (as_window recipes.old amounts.old head) }
{
    gate(recipes, amounts, head)?;
    if Amount::MAX < amount.0 {
        return Err(Refusal::TooMuch);
    }
    Ok(put_record(recipes, amounts, head, recipe, amount))
}

// The recipe at the valve; none where what is there is older than the window. `volume` is the water between the mixer and the valve, in
// millilitres: any number of 32 bits.
pub fn at_valve(
    recipes: &[u16],
    amounts: &[u32],
    head: Head,
    volume: u32,
) -> Result<Option<Recipe>, Refusal>
    ensures { outcome (as_window recipes.now amounts.now head) (found_reply result)
        ≡ asks volume (as_window recipes.now amounts.now head) }
{
    gate(recipes, amounts, head)?;
    Ok(recipe_back(recipes, amounts, head.next, volume))
}
