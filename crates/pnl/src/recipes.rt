// Which recipe is at the valve (document 02, S-13), from C. The window is the caller's: two tables, the next slot and the stated sum.
// Nothing is kept here, and it is written only where a record is taken.
ghost use Rattle.std.specs.Prelude.{◌≡◌};
ghost use Rattle.valve.specs.Window.{record_of, window};
ghost use Rattle.valve.specs.Calls.{arrives, asks};
ghost use Rattle.valve.specs.FromC.{in_c, outcome_in_c};

use valve::lent::{arrive_lent, recipe_lent};

// Arrive: a record of this minute.
pub fn pnl_valve_arrive(
    recipes: &mut [u16],
    amounts: &mut [u32],
    next: &mut u16,
    sum: &mut u32,
    recipe: u16,
    amount: u32,
) -> i32
    ensures { in_c (window recipes.new amounts.new next.new sum.new) result
        ≡ outcome_in_c (arrives (record_of recipe amount)
        (window recipes.old amounts.old next.old sum.old)) }
{
    arrive_lent(recipes, amounts, next, sum, recipe, amount)
}

// The recipe at a valve with `volume` ml between the mixer and itself.
pub fn pnl_valve_recipe(recipes: &[u16], amounts: &[u32], next: u16, sum: u32, volume: u32) -> i32
    ensures { in_c (window recipes.now amounts.now next sum) result
        ≡ outcome_in_c (asks volume (window recipes.now amounts.now next sum)) }
{
    recipe_lent(recipes, amounts, next, sum, volume)
}
