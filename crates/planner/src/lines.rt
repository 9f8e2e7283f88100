// From a line of a register's sheet to the answer. The planner knows the register by what the sheet's contract says of the lent slice: six
// numbers a line in front, the last of them the volume.
ghost use Rattle.std.specs.Prelude.{◌≡◌};
ghost use Rattle.planner.specs.Windows.{windows_in};
ghost use Rattle.planner.specs.Planning.{plan};
ghost use Rattle.planner.specs.Lines.{line_volume};
ghost use Rattle.planner.specs.Answers.{planned_reply};

use crate::answers::{Plan, Refusal};
use crate::numbers::{Flow, Minute, Volume};
use crate::planning::plan_change;

// The numbers of a line, and the place of the volume among them.
const LINE: usize = 6;

const VOLUME: usize = 5;

// Lines count from 0. Past the end of the slice no volume is known.
fn volume_of(sheet: &[u32], line: u16) -> u32
    ensures { result ≡ line_volume sheet.now line }
{
    sheet
        .get(LINE * (line as usize) + VOLUME)
        .copied()
        .unwrap_or(Volume::UNKNOWN)
}

// `sheet` is the slice that the register's sheet was answered in, and `line` one of so many as it answered.
pub fn plan_line(
    sheet: &[u32],
    line: u16,
    windows: &[u16],
    flow: Flow,
    minute: Minute,
) -> Result<Plan, Refusal>
    ensures { planned_reply result
        ≡ plan (line_volume sheet.now line) flow.0 minute.0 (windows_in windows.now) }
{
    let volume = volume_of(sheet, line);
    plan_change(windows, Volume(volume), flow, minute)
}
