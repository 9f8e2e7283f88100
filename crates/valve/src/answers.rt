// The head of a window, and the refusals. Definitions, `number_of`, `arrived_reply` and `found_reply`, give document 02's number of each
// refusal and its values of what the calls answer.
ghost use Rattle.std.specs.Prelude.{◌≡◌, replicate};
ghost use Rattle.valve.specs.Numbers.{slots};
ghost use Rattle.valve.specs.Window.{empty};
ghost use Rattle.valve.specs.Answers.{as_window};

use crate::numbers::Minute;

// The slot that takes the next record, which is the oldest one's, and the stated sum of the window's records, at most 1,440,000,000 ml.
#[derive(Clone, Copy)]
pub struct Head {
    pub next: Minute,
    pub sum: u32,
}

impl Head {
    // With two tables of zeros, the window that no record has reached.
    pub fn none() -> Head
        ensures { as_window (replicate slots 0) (replicate slots 0) result ≡ empty }
    {
        Head {
            next: Minute(0),
            sum: 0,
        }
    }
}

#[derive(Clone, Copy)]
pub enum Refusal {
    WrongSize,
    NotFromArrivals,
    TooMuch,
}
