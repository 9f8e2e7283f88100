// The two calls as C makes them (crate pnl hands them on): the head is lent too, and an answer is one number.
ghost use Rattle.std.specs.Prelude.{◌≡◌};
ghost use Rattle.valve.specs.Valve.{refuses};
ghost use Rattle.valve.specs.Window.{record_of, window};
ghost use Rattle.valve.specs.Calls.{arrives, asks};
ghost use Rattle.valve.specs.Answers.{number_of, found_reply};
ghost use Rattle.valve.specs.FromC.{number_in_c, in_c, outcome_in_c};

use crate::answers::{Head, Refusal};
use crate::calls::{arrive, at_valve};
use crate::numbers::{Amount, Minute, Recipe};

// What stands for "older than the window": one more than the largest recipe.
const OLDER: i32 = 65536;

impl From<Refusal> for i32 {
    ghost from_gives = { λ refusal number. number ≡ number_in_c (refuses (number_of refusal)) };

    fn from(refusal: Refusal) -> i32 {
        match refusal {
            Refusal::WrongSize => -25,
            Refusal::NotFromArrivals => -21,
            Refusal::TooMuch => -40,
        }
    }
}

fn found_number(found: Result<Option<Recipe>, Refusal>) -> i32
    ensures { result ≡ number_in_c (found_reply found) }
{
    match found {
        Ok(Some(recipe)) => recipe.0 as i32,
        Ok(None) => OLDER,
        Err(refusal) => i32::from(refusal),
    }
}

// 0, and the window has the record; or a refusal, and nothing has changed.
pub fn arrive_lent(
    recipes: &mut [u16],
    amounts: &mut [u32],
    next: &mut u16,
    sum: &mut u32,
    recipe: u16,
    amount: u32,
) -> i32
    ensures { in_c (window recipes.new amounts.new next.new sum.new) result
        ≡ outcome_in_c (arrives (record_of recipe amount)
        (window recipes.old amounts.old next.old sum.old)) }
{
    let head = Head {
        next: Minute(*next),
        sum: *sum,
    };
    match arrive(recipes, amounts, head, Recipe(recipe), Amount(amount)) {
        Ok(after) => {
            *next = after.next.0;
            *sum = after.sum;
            0
        }
        Err(refusal) => i32::from(refusal),
    }
}

// The recipe at the valve, or OLDER, or a refusal.
pub fn recipe_lent(recipes: &[u16], amounts: &[u32], next: u16, sum: u32, volume: u32) -> i32
    ensures { in_c (window recipes.now amounts.now next sum) result
        ≡ outcome_in_c (asks volume (window recipes.now amounts.now next sum)) }
{
    let head = Head {
        next: Minute(next),
        sum,
    };
    found_number(at_valve(recipes, amounts, head, volume))
}
