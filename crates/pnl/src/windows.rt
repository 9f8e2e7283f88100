// When a change of recipe can go through (document 02, S-8), from C. The windows are the caller's, two numbers each, and are only read.
ghost use Rattle.std.specs.Prelude.{◌≡◌};
ghost use Rattle.planner.specs.Windows.{windows_in};
ghost use Rattle.planner.specs.Planning.{plan};
ghost use Rattle.planner.specs.FromC.{number_in_c};

use planner::lent::plan_lent;

// Plan: the first minute from which the whole transit lies inside one window.
pub fn pnl_plan(windows: &[u16], volume: u32, flow: u32, minute: u32) -> i32
    ensures { result ≡ number_in_c (plan volume flow minute (windows_in windows.now)) }
{
    plan_lent(windows, volume, flow, minute)
}
