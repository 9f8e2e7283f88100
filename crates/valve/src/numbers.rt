// A recipe number, the millilitres of a record and a minute of the window: three types, so that none stands where another is expected.
// Each has its bounds, and a constructor that tests them, on a number that is wide enough to be out of them. One generic constructor would
// need an `impl` for each type that says how one is made of a number and a law of it, more than the test itself.
ghost use Rattle.std.specs.Prelude.{◌≡◌, ◌-◌};
ghost use Rattle.counters.specs.Numbers.{within};
ghost use Rattle.valve.specs.Numbers.{max_recipe, max_amount, slots, as_recipe, as_amount, as_minute};

// The number of a recipe, of 16 bits.
#[derive(Clone, Copy)]
pub struct Recipe(pub u16);

impl Recipe {
    pub const MAX: u16 = 65535;

    pub fn new(n: u32) -> Option<Recipe>
        ensures { as_recipe result ≡ within 0 max_recipe n }
    {
        if n <= (Recipe::MAX as u32) {
            Some(Recipe(n as u16))
        } else {
            None
        }
    }
}

// The millilitres that passed in one minute. One above the bound can be made without the constructor: `arrive` refuses it with 40. The
// water down to a valve and the sum of a window are other numbers, of any 32 bits.
#[derive(Clone, Copy)]
pub struct Amount(pub u32);

impl Amount {
    pub const MAX: u32 = 1000000;

    pub fn new(n: u32) -> Option<Amount>
        ensures { as_amount result ≡ within 0 max_amount n }
    {
        if n <= Amount::MAX {
            Some(Amount(n))
        } else {
            None
        }
    }
}

// A minute of the window, and so the slot of its record; the record of 1,440 minutes later takes the same.
#[derive(Clone, Copy)]
pub struct Minute(pub u16);

impl Minute {
    pub const MAX: u16 = 1439;

    // "The last 1,440 records": one a minute.
    pub const COUNT: u16 = Minute::MAX + 1;

    pub fn new(n: u32) -> Option<Minute>
        ensures { as_minute result ≡ within 0 (slots - 1) n }
    {
        if n <= (Minute::MAX as u32) {
            Some(Minute(n as u16))
        } else {
            None
        }
    }
}
