// The volume of a run, the flow, a minute of the week and a minute of two weeks: four types, so that none stands where another is expected.
// Each has its bounds, and a constructor that tests them, on a number that is wide enough to be out of them. One generic constructor would
// need an `impl` for each type that says how one is made of a number and a law of it, more than the test itself.
ghost use Rattle.std.specs.Prelude.{◌≡◌, ◌-◌, ◌*◌};
ghost use Rattle.counters.specs.Numbers.{within};
ghost use Rattle.planner.specs.Numbers.{max_volume, max_flow, week, as_volume, as_flow, as_minute, as_beginning};

// The millilitres in a run, as the last number of a sheet's line has them; 0 is unknown. It is no volume of one pipe: that is at most
// 1,000,000, and a run has up to 4,096 of them. One above the bound can be made without the constructor: no refusal names it, and it is
// planned like any other.
#[derive(Clone, Copy)]
pub struct Volume(pub u32);

impl Volume {
    // What stands for a volume that is not known.
    pub const UNKNOWN: u32 = 0;

    pub const MAX: u32 = 4096000000;

    pub fn new(n: u32) -> Option<Volume>
        ensures { as_volume result ≡ within 0 max_volume n }
    {
        if n <= Volume::MAX {
            Some(Volume(n))
        } else {
            None
        }
    }
}

// Millilitres a minute. One out of bounds can be made without the constructor: it is refused with 34.
#[derive(Clone, Copy)]
pub struct Flow(pub u32);

impl Flow {
    pub const MIN: u32 = 1;

    pub const MAX: u32 = 1000000;

    pub fn new(n: u32) -> Option<Flow>
        ensures { as_flow result ≡ within 1 max_flow n }
    {
        if Flow::MIN <= n && n <= Flow::MAX {
            Some(Flow(n))
        } else {
            None
        }
    }
}

// A minute of this week, from 0. One above the bound can be made without the constructor: it is refused with 34.
#[derive(Clone, Copy)]
pub struct Minute(pub u16);

impl Minute {
    pub const MAX: u16 = 10079;

    // The minutes of a week: the first minute of the next one, and the last end of a window.
    pub const WEEK: u16 = Minute::MAX + 1;

    pub fn new(n: u32) -> Option<Minute>
        ensures { as_minute result ≡ within 0 (week - 1) n }
    {
        if n <= (Minute::MAX as u32) {
            Some(Minute(n as u16))
        } else {
            None
        }
    }
}

// A minute of this week, or of the next, whose minutes are counted on from 10,080: there a change begins.
#[derive(Clone, Copy)]
pub struct Beginning(pub u16);

impl Beginning {
    pub const MAX: u16 = 20159;

    pub fn new(n: u32) -> Option<Beginning>
        ensures { as_beginning result ≡ within 0 (2 * week - 1) n }
    {
        if n <= (Beginning::MAX as u32) {
            Some(Beginning(n as u16))
        } else {
            None
        }
    }
}
