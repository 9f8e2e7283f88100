// A quote (document 02, S-5). A definition, `as_quote`, gives its parts. Quote answers `Result<Quote, Refusal>`, and commit `Result<(), Refusal>`.
ghost use Rattle.std.specs.Prelude.{◌≡◌};
ghost use Rattle.model.specs.Register.{eq_quote};
ghost use Rattle.counters.specs.Quotes.{number_of_case, as_quote};

use crate::refusals::Refusal;

// Document 01's six cases, and document 02's ring.
#[derive(Clone, Copy, PartialEq, Eq)]
pub enum QuotedCase {
    NewRun = 1,
    Extended = 2,
    Merged = 3,
    SplitExtended = 4,
    Split = 5,
    SplitTwice = 6,
    Ring = 7,
}

impl QuotedCase {
    pub fn number(self) -> u32
        ensures { result ≡ number_of_case self }
    {
        self as u32
    }
}

// What a pipe would be landed as: its case, and the number of re-hangings.
#[derive(Clone, Copy, PartialEq, Eq)]
pub struct Offer {
    pub case: QuotedCase,
    pub relabellings: u32,
}

// The pipe as it was asked for, in plain numbers, since it may be one that is refused; what is offered, or the refusal; the counts at which it was made.
#[derive(Clone, Copy, PartialEq, Eq)]
pub struct Quote {
    pub first: u16,
    pub second: u16,
    pub length: u32,
    pub volume: u32,
    pub terms: Result<Offer, Refusal>,
    pub vertices: u16,
    pub edges: u16,
}

// Whether the two are the same in every part.
pub fn same_quote(a: Quote, b: Quote) -> bool
    ensures { result ≡ eq_quote (as_quote a) (as_quote b) }
{
    a == b
}
