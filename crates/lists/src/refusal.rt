// Why a list is refused, and where.
ghost use Rattle.std.specs.Prelude.{◌≡◌};
ghost use Rattle.lists.specs.Refusals.{place_of, fault_of};
ghost use Rattle.lists.specs.declared.refusal.Refusal.TheVariants.{NoMemory};

use std::alloc::{AllocError, AllocFailed};
pub use terms::fault::Fault;

// A line of one of the two texts. Forms and rules are counted from 0.
#[derive(Clone, Copy, Debug, PartialEq, Eq)]
pub enum Place {
    // the header's first line
    Head,
    // the header's line for a form
    Form(u32),
    // the table's first line
    Table,
    // the table's line for a rule
    Rule(u32),
}

#[derive(Clone, Copy, Debug, PartialEq, Eq)]
pub enum Refusal {
    // the header or the table is too long
    TextTooLong,
    // a line breaks its pattern or a range
    LineBroken(Place),
    // the text ends before this line
    LineMissing(Place),
    // the text goes on behind the declared lines, with this one
    LineExtra(Place),
    // the table's first line differs from the header's
    TableDiffers,
    // a side of the rule has the wrong shape
    WrongShape(u32),
    // a variable of the rule stands twice on a side, or on the right alone
    WrongVariables(u32),
    // the rule overlaps an earlier one
    Overlap(u32),
    // the form has no rule
    NoRule(u32),
    // there was no memory to read the list into
    NoMemory,
}

const TEXT_TOO_LONG: u32 = 10;

const LINE_BROKEN: u32 = 11;

const LINE_COUNT: u32 = 12;

const WRONG_SHAPE: u32 = 13;

const WRONG_VARIABLES: u32 = 14;

const OVERLAP: u32 = 15;

const NO_RULE: u32 = 16;

const NO_MEMORY: u32 = 19;
// Every refusal of a list has this layer.
const ACCEPTANCE: u32 = 9;

const TABLE_PLACES: u64 = 1000;

// The line's number, from 1; the table's lines have 1,000 more.
impl From<Place> for u64 {
    ghost from_gives = { λ p n. n ≡ place_of p };

    fn from(place: Place) -> u64 {
        match place {
            Place::Head => 1,
            Place::Form(i) => 2 + u64::from(i),
            Place::Table => TABLE_PLACES + 1,
            Place::Rule(i) => TABLE_PLACES + 2 + u64::from(i),
        }
    }
}

// The refusal's cause, layer and place.
impl From<Refusal> for Fault {
    ghost from_gives = { λ r f. f ≡ fault_of r };

    fn from(refusal: Refusal) -> Fault {
        let (cause, place) = match refusal {
            Refusal::TextTooLong => (TEXT_TOO_LONG, 0),
            Refusal::LineBroken(line) => (LINE_BROKEN, u64::from(line)),
            Refusal::LineMissing(line) => (LINE_COUNT, u64::from(line)),
            Refusal::LineExtra(line) => (LINE_COUNT, u64::from(line)),
            Refusal::TableDiffers => (LINE_COUNT, u64::from(Place::Table)),
            Refusal::WrongShape(rule) => (WRONG_SHAPE, u64::from(Place::Rule(rule))),
            Refusal::WrongVariables(rule) => (WRONG_VARIABLES, u64::from(Place::Rule(rule))),
            Refusal::Overlap(rule) => (OVERLAP, u64::from(Place::Rule(rule))),
            Refusal::NoRule(form) => (NO_RULE, u64::from(Place::Form(form))),
            Refusal::NoMemory => (NO_MEMORY, 0),
        };
        Fault {
            cause,
            layer: ACCEPTANCE,
            place,
        }
    }
}

impl From<AllocError> for Refusal {
    ghost from_gives = { λ _ r. r ≡ NoMemory };

    fn from(_e: AllocError) -> Refusal {
        Refusal::NoMemory
    }
}

// The library has two errors for want of memory, so the question mark needs two impls.
impl<T: Drop> From<AllocFailed<T>> for Refusal {
    ghost from_gives = { λ _ r. r ≡ NoMemory };

    fn from(_e: AllocFailed<T>) -> Refusal {
        Refusal::NoMemory
    }
}
