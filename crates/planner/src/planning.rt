// The call: 34, 35, "unknown", and then the first minute of this week or of the next.
ghost use Rattle.std.specs.Prelude.{◌≡◌, true, ◌≤◌, ◌<◌};
ghost use Rattle.planner.specs.Numbers.{week, as_beginning};
ghost use Rattle.planner.specs.Windows.{windows_in, ordered};
ghost use Rattle.planner.specs.Planning.{transit, out_of_bounds, plan, earliest};
ghost use Rattle.planner.specs.Answers.{planned_reply};

use crate::answers::{Plan, Refusal};
use crate::numbers::{Beginning, Flow, Minute, Volume};
use crate::windows::{first_from, in_order};

// "Up to 32 weekly windows", two numbers each.
const MAX_NUMBERS: usize = 64;

fn out_of_bounds(windows: &[u16], flow: Flow, minute: Minute) -> bool
    ensures { result ≡ out_of_bounds flow.0 minute.0 (windows_in windows.now) }
{
    flow.0 < Flow::MIN
        || Flow::MAX < flow.0
        || Minute::MAX < minute.0
        || MAX_NUMBERS < windows.len()
}

// Rounded up.
fn transit_of(volume: Volume, flow: Flow) -> u32
    requires { (1 ≤ volume.0) × (1 ≤ flow.0) }
    ensures { (result ≡ transit volume.0 flow.0) × (1 ≤ result) }
{
    volume.0.div_ceil(flow.0)
}

// The first minute of this week, or else of the next one, where every window is still to come.
fn first_minute(windows: &[u16], minutes: u32, from: Minute) -> Option<Beginning>
    requires { (1 ≤ minutes) × ((from.0 < week) × (ordered 0 (windows_in windows.now) ≡ true)) }
    ensures { as_beginning result ≡ earliest (windows_in windows.now) minutes from.0 }
{
    let next_week = || first_from(windows, minutes, 0, Minute::WEEK);
    first_from(windows, minutes, from.0, 0).or_else(next_week)
}

// What outsiders call. `windows` has two numbers a window, its start and its end.
pub fn plan_change(
    windows: &[u16],
    volume: Volume,
    flow: Flow,
    minute: Minute,
) -> Result<Plan, Refusal>
    ensures { planned_reply result ≡ plan volume.0 flow.0 minute.0 (windows_in windows.now) }
{
    if out_of_bounds(windows, flow, minute) {
        return Err(Refusal::OutOfBounds);
    }
    if !in_order(windows) {
        return Err(Refusal::Windows);
    }
    if volume.0 == Volume::UNKNOWN {
        return Ok(Plan::Unknown);
    }
    match first_minute(windows, transit_of(volume, flow), minute) {
        Some(beginning) => Ok(Plan::At(beginning)),
        None => Ok(Plan::Never),
    }
}
