// A window: one record more, the walk back over the records, and 21. The functions ask nothing of their callers. The two tables come as
// slices: of a struct that held both, each clause would read `window.entry.recipes.now`.
ghost use Rattle.std.specs.Prelude.{◌≡◌, ltb};
ghost use Rattle.valve.specs.Numbers.{slots};
ghost use Rattle.valve.specs.Window.{record_of, newest, held};
ghost use Rattle.valve.specs.Steps.{put_in};
ghost use Rattle.valve.specs.Valve.{at_valve};
ghost use Rattle.valve.specs.Answers.{as_window, back_reply};

use crate::answers::Head;
use crate::numbers::{Amount, Minute, Recipe};
use crate::slots::{slot_after, slot_before};
use tables::access::{add32, at, put};

// The record takes the slot of the oldest, whose millilitres leave the sum first: so the sum stays within its type.
pub fn put_record(
    recipes: &mut [u16],
    amounts: &mut [u32],
    head: Head,
    recipe: Recipe,
    amount: Amount,
) -> Head
    ensures { as_window recipes.new amounts.new result
        ≡ put_in (record_of recipe.0 amount.0) (as_window recipes.old amounts.old head) }
{
    let slot = head.next.0;
    let rest = head.sum.saturating_sub(at(amounts, slot as usize));
    put(recipes, slot as usize, recipe.0);
    put(amounts, slot as usize, amount.0);
    Head {
        next: Minute(slot_after(slot)),
        sum: add32(rest, amount.0),
    }
}

// Whether a record of this amount holds the millilitre that comes after so many, counted back from its last. Of 0 ml it holds none.
fn holds_next(amount: u32, rest: u32) -> bool
    ensures { result ≡ ltb rest amount }
{
    rest < amount
}

// The recipe of the record that holds the millilitre after this many, counted back; none where it is older than the records.
pub fn recipe_back(recipes: &[u16], amounts: &[u32], next: Minute, volume: u32) -> Option<Recipe>
    ensures { back_reply result ≡ at_valve volume (newest recipes.now amounts.now slots next.0) }
{
    let mut slot = next.0;
    let mut rest = volume;
    for _ in 0..Minute::COUNT {
        slot = slot_before(slot);
        let amount = at(amounts, slot as usize);
        if holds_next(amount, rest) {
            return Some(Recipe(at(recipes, slot as usize)));
        }
        rest -= amount;
    }
    None
}

// Whether arrivals from empty leave this window, of tables of the right sizes.
pub fn is_held(recipes: &[u16], amounts: &[u32], head: Head) -> bool
    ensures { result ≡ held (as_window recipes.now amounts.now head) }
{
    if Minute::MAX < head.next.0 {
        return false;
    }
    let mut slot = head.next.0;
    let mut sum: u32 = 0;
    for _ in 0..Minute::COUNT {
        slot = slot_before(slot);
        let amount = at(amounts, slot as usize);
        if Amount::MAX < amount {
            return false;
        }
        sum += amount;
    }
    sum == head.sum
}
