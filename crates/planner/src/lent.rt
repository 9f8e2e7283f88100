// The call as C makes it (crate pnl hands it on): plain numbers, and an answer is one number.
ghost use Rattle.std.specs.Prelude.{◌≡◌};
ghost use Rattle.planner.specs.Windows.{windows_in};
ghost use Rattle.planner.specs.Planning.{refuses, plan};
ghost use Rattle.planner.specs.Answers.{number_of, planned_reply};
ghost use Rattle.planner.specs.FromC.{number_in_c};

use crate::answers::{Plan, Refusal};
use crate::numbers::{Beginning, Flow, Minute, Volume};
use crate::planning::plan_change;

// What stands for "none" and for "unknown": numbers behind the last minute of the two weeks.
const NEVER: i32 = (Beginning::MAX as i32) + 1;

const UNKNOWN: i32 = NEVER + 1;

impl From<Refusal> for i32 {
    ghost from_gives = { λ refusal number. number ≡ number_in_c (refuses (number_of refusal)) };

    fn from(refusal: Refusal) -> i32 {
        match refusal {
            Refusal::OutOfBounds => -34,
            Refusal::Windows => -35,
        }
    }
}

fn planned_number(planned: Result<Plan, Refusal>) -> i32
    ensures { result ≡ number_in_c (planned_reply planned) }
{
    match planned {
        Ok(Plan::At(beginning)) => beginning.0 as i32,
        Ok(Plan::Never) => NEVER,
        Ok(Plan::Unknown) => UNKNOWN,
        Err(refusal) => i32::from(refusal),
    }
}

// The minute has 32 bits here, so that none is cut to a smaller one on the way.
pub fn plan_lent(windows: &[u16], volume: u32, flow: u32, minute: u32) -> i32
    ensures { result ≡ number_in_c (plan volume flow minute (windows_in windows.now)) }
{
    let Some(given) = Minute::new(minute) else {
        return i32::from(Refusal::OutOfBounds);
    };
    planned_number(plan_change(windows, Volume(volume), Flow(flow), given))
}
