// The case of an insertion, by the degrees of the two ends before it.
ghost use Rattle.std.specs.Prelude.{◌≡◌};
ghost use Rattle.model.specs.Cases.{isolated, leaf, regular, class_of, case_of};
ghost use Rattle.checking.specs.Meaning.{as_class, as_case};

// Degrees 0, 1, 2, 3 and up. Document 01 calls a regular vertex a coupling, every other one a junction, and a leaf free.
#[derive(Clone, Copy)]
pub enum Class {
    Isolated,
    Leaf,
    Regular,
    Branch,
}

// Document 01's six cases; where it matters, with the end that is extended or split.
#[derive(Clone, Copy)]
pub enum Case {
    New,
    ExtendFirst,
    ExtendSecond,
    Merge,
    SplitExtendFirst,
    SplitExtendSecond,
    SplitFirst,
    SplitSecond,
    SplitBoth,
}

pub fn class_of(degree: u16) -> Class
    ensures { as_class result ≡ class_of degree }
{
    match degree {
        0 => Class::Isolated,
        1 => Class::Leaf,
        2 => Class::Regular,
        _ => Class::Branch,
    }
}

// The first end's degree: 0 makes the cases that 3 and up make, and so the test that the processor mispredicts most has three outcomes, not
// four.
pub fn case_of(first: u16, second: Class) -> Case
    ensures { as_case result ≡ case_of (class_of first) (as_class second) }
{
    match first {
        1 => case_of_leaf(second),
        2 => case_of_regular(second),
        _ => case_of_singular(second),
    }
}

// The first end is singular and no leaf: an isolated vertex and a branch make the same cases.
fn case_of_singular(second: Class) -> Case
    ensures { as_case result ≡ case_of isolated (as_class second) }
{
    match second {
        Class::Isolated => Case::New,
        Class::Leaf => Case::ExtendSecond,
        Class::Regular => Case::SplitSecond,
        Class::Branch => Case::New,
    }
}

fn case_of_leaf(second: Class) -> Case
    ensures { as_case result ≡ case_of leaf (as_class second) }
{
    match second {
        Class::Isolated => Case::ExtendFirst,
        Class::Leaf => Case::Merge,
        Class::Regular => Case::SplitExtendFirst,
        Class::Branch => Case::ExtendFirst,
    }
}

fn case_of_regular(second: Class) -> Case
    ensures { as_case result ≡ case_of regular (as_class second) }
{
    match second {
        Class::Isolated => Case::SplitFirst,
        Class::Leaf => Case::SplitExtendSecond,
        Class::Regular => Case::SplitBoth,
        Class::Branch => Case::SplitFirst,
    }
}
