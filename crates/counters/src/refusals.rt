// Document 01's refusals, and 31, 32, 33 and 36 to 39 of document 02, which withdraws 24. A definition, `number_of`, gives the number of each.
ghost use Rattle.std.specs.Prelude.{◌≡◌};
ghost use Rattle.counters.specs.Refusals.{number_of};

#[derive(Clone, Copy, PartialEq, Eq)]
pub enum Refusal {
    NoMark = 1,
    Version = 2,
    Cut = 3,
    UnknownKind = 4,
    NotLanded = 5,
    SameVertex = 6,
    Length = 7,
    NotRegular = 8,
    ShortSlice = 9,
    NotGrown = 21,
    TooManyVertices = 22,
    TooManyEdges = 23,
    WrongSize = 25,
    Volume = 31,
    OtherQuote = 32,
    Beyond = 33,
    OverLimit = 36,
    OutOfPlace = 37,
    NotRemovable = 38,
    Ended = 39,
}

impl Refusal {
    pub fn number(self) -> u32
        ensures { result ≡ number_of self }
    {
        self as u32
    }
}
