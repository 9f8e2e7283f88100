// A fitting number, a tag, a length in millimetres and a volume in millilitres: four types, so that none stands where another is expected;
// and a pipe's number. Each of the four has its bounds, and a constructor that tests them, on a number that is wide enough to be out of
// them. What a list or a caller says becomes one of them by such a constructor alone. What is read from a lent table is of the kind that
// the table holds (tables::kinds).
ghost use Rattle.std.specs.Prelude.{◌≡◌, ◌-◌, ◌^◌};
ghost use Rattle.counters.specs.Numbers.{within, among_landed, volume_of, as_vertex, as_label, as_millimetres, as_millilitres};
ghost use Rattle.model.specs.Basics.{max_vertices, max_length};

// Document 01's fitting number, from 0.
#[derive(Clone, Copy, PartialEq, Eq, PartialOrd, Ord)]
pub struct Vertex(pub u16);

impl Vertex {
    pub const MAX: u16 = 4095;

    // "At most 4,096 of each": a 4,097th is refused.
    pub const COUNT: u16 = Vertex::MAX + 1;

    pub fn new(n: u32) -> Option<Vertex>
        ensures { as_vertex result ≡ within 0 (max_vertices - 1) n }
    {
        if n <= (Vertex::MAX as u32) {
            return Some(Vertex(n as u16));
        }
        None
    }

    // The stricter test: one of so many that are landed. The bound is tested too, although no register has more: then it needs no further
    // test where the tables are read (docs/SPEED.md).
    pub fn landed(n: u16, count: u16) -> Option<Vertex>
        ensures { as_vertex result ≡ among_landed count n }
    {
        if Vertex::COUNT <= n {
            return None;
        }
        if n < count {
            return Some(Vertex(n));
        }
        None
    }
}

// Document 01's pipe number, from 0. No list and no caller says one: it is the count of pipes,
// which 23 has tested, a number below it, or read from a table; so it has no checked constructor.
#[derive(Clone, Copy, PartialEq, Eq, PartialOrd, Ord)]
pub struct Edge(pub u16);

impl Edge {
    pub const MAX: u16 = 4095;

    // "At most 4,096 of each": a 4,097th is refused.
    pub const COUNT: u16 = Edge::MAX + 1;
}

// Document 01's tag, of 32 bits.
#[derive(Clone, Copy, PartialEq, Eq, PartialOrd, Ord)]
pub struct Label(pub u32);

impl Label {
    pub const MAX: u32 = 4294967295;

    // Every number of 32 bits passes; what C says goes through it.
    pub fn new(n: u64) -> Option<Label>
        ensures { as_label result ≡ within 0 (2 ^ 32 - 1) n }
    {
        if n <= (Label::MAX as u64) {
            return Some(Label(n as u32));
        }
        None
    }
}

// A length: of one pipe by `new`, which MIN and MAX bound; a sum of them by `add_lengths` of tables.
#[derive(Clone, Copy)]
pub struct Millimetres(pub u32);

impl Millimetres {
    pub const MIN: u32 = 1;

    pub const MAX: u32 = 100000;

    pub fn new(n: u32) -> Option<Millimetres>
        ensures { as_millimetres result ≡ within 1 max_length n }
    {
        if n < Millimetres::MIN {
            return None;
        }
        if n <= Millimetres::MAX {
            return Some(Millimetres(n));
        }
        None
    }
}

// A volume: of one pipe by `new`, which MIN and MAX bound; a sum of them by `volume_onto` of chains. 0 in the register where it is not known.
#[derive(Clone, Copy)]
pub struct Millilitres(pub u32);

// Three ways, and so no Option: a pipe without a known volume lands, and one with a volume out of range is refused.
#[derive(Clone, Copy)]
pub enum CheckedMillilitres {
    Known(Millilitres),
    Unknown,
    OutOfRange,
}

impl Millilitres {
    // What stands for a volume that is not known.
    pub const UNKNOWN: u32 = 0;

    pub const MIN: u32 = Millilitres::UNKNOWN + 1;

    pub const MAX: u32 = 1000000;

    pub fn new(n: u32) -> CheckedMillilitres
        ensures { as_millilitres result ≡ volume_of n }
    {
        if n < Millilitres::MIN {
            return CheckedMillilitres::Unknown;
        }
        if n <= Millilitres::MAX {
            return CheckedMillilitres::Known(Millilitres(n));
        }
        CheckedMillilitres::OutOfRange
    }
}
