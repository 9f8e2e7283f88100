// The calls of `pnl` from C, under its names. A crate is a library or a static library: `survey` and `costs` stand on `pnl`, so C takes it
// through this one.
#![tactic(auto)]

ghost use Rattle.std.specs.Prelude.{◌≡◌};
ghost use Rattle.model.specs.FromC.{c_find, c_find_at};
ghost use Rattle.planner.specs.Windows.{windows_in};
ghost use Rattle.planner.specs.Planning.{plan};
ghost use Rattle.planner.specs.FromC.{number_in_c};
ghost use Rattle.pnl.specs.FromC.{returned};
ghost use Rattle.valve.specs.Window.{record_of, window};
ghost use Rattle.valve.specs.Calls.{arrives, asks};
ghost use Rattle.valve.specs.FromC.{in_c, outcome_in_c};

// Find, by tag and by fitting.
#[unsafe(no_mangle)]
pub extern "C" fn pnl_find(list: &[u8], tag: u32, answer: &mut [u8]) -> i32
    ensures { returned answer.new result ≡ c_find list.now tag answer.old }
{
    pnl::pnl_find(list, tag, answer)
}

#[unsafe(no_mangle)]
pub extern "C" fn pnl_find_at(list: &[u8], fitting: u32, answer: &mut [u8]) -> i32
    ensures { returned answer.new result ≡ c_find_at list.now fitting answer.old }
{
    pnl::pnl_find_at(list, fitting, answer)
}

// The recipe at a valve, and a record of the mixer.
#[unsafe(no_mangle)]
pub extern "C" fn pnl_valve_arrive(
    recipes: &mut [u16],
    amounts: &mut [u32],
    next: &mut u16,
    sum: &mut u32,
    recipe: u16,
    amount: u32,
) -> i32
    ensures { in_c (window recipes.new amounts.new next.new sum.new) result
        ≡ outcome_in_c (arrives (record_of recipe amount)
        (window recipes.old amounts.old next.old sum.old)) }
{
    pnl::recipes::pnl_valve_arrive(recipes, amounts, next, sum, recipe, amount)
}

#[unsafe(no_mangle)]
pub extern "C" fn pnl_valve_recipe(
    recipes: &[u16],
    amounts: &[u32],
    next: u16,
    sum: u32,
    volume: u32,
) -> i32
    ensures { in_c (window recipes.now amounts.now next sum) result
        ≡ outcome_in_c (asks volume (window recipes.now amounts.now next sum)) }
{
    pnl::recipes::pnl_valve_recipe(recipes, amounts, next, sum, volume)
}

// When a change of recipe can go through.
#[unsafe(no_mangle)]
pub extern "C" fn pnl_plan(windows: &[u16], volume: u32, flow: u32, minute: u32) -> i32
    ensures { result ≡ number_in_c (plan volume flow minute (windows_in windows.now)) }
{
    pnl::windows::pnl_plan(windows, volume, flow, minute)
}
