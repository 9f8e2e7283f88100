// A compartment's windows: a lent slice of two numbers a window, its start and its end. A last number alone is a window without an end:
// its start is not before its end, so it is refused with 35.
ghost use Rattle.std.specs.Prelude.{◌≡◌, true, ◌+◌, ◌≤◌, leb};
ghost use Rattle.planner.specs.Numbers.{week, as_beginning};
ghost use Rattle.planner.specs.Windows.{window, windows_in, follows, ordered};
ghost use Rattle.planner.specs.Weeks.{as_found, first_in, first_from};

use crate::numbers::{Beginning, Minute};

fn follows_on(previous: u16, start: u16, end: u16) -> bool
    ensures { result ≡ follows previous (window start end) }
{
    previous <= start && start < end && end <= Minute::WEEK
}

// Whether no window is refused with 35.
pub fn in_order(windows: &[u16]) -> bool
    ensures { result ≡ ordered 0 (windows_in windows.now) }
{
    let mut previous: u16 = 0;
    for window in windows.chunks(2) {
        let &[start, end] = window else {
            return false;
        };
        if !follows_on(previous, start, end) {
            return false;
        }
        previous = end;
    }
    true
}

// Whether the last of so many minutes is before the end. By a difference: the sum of a minute and a transit may be too large for its type.
fn ends_by(begin: u16, minutes: u32, end: u16) -> bool
    ensures { result ≡ leb (begin + minutes) end }
{
    begin <= end && minutes <= ((end - begin) as u32)
}

// The first minute of a week, at or after `from`, from which so many minutes lie inside one window; the windows are in order.
fn first_in(windows: &[u16], minutes: u32, from: u16) -> Option<u16>
    requires { 1 ≤ minutes }
    ensures { as_found result ≡ first_in minutes from (windows_in windows.now) }
{
    for window in windows.chunks(2) {
        let &[start, end] = window else {
            return None;
        };
        let begin = start.max(from);
        if ends_by(begin, minutes, end) {
            return Some(begin);
        }
    }
    None
}

// The same in the week that begins at this minute of the two weeks.
pub fn first_from(windows: &[u16], minutes: u32, from: u16, base: u16) -> Option<Beginning>
    requires { (1 ≤ minutes) × ((base ≤ week) × (ordered 0 (windows_in windows.now) ≡ true)) }
    ensures { as_beginning result ≡ first_from base minutes from (windows_in windows.now) }
{
    let minute = first_in(windows, minutes, from)?;
    Some(Beginning(base + minute))
}
