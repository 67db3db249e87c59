// Why a load, a step or a show is refused, and where.
ghost use Rattle.std.specs.Prelude.{◌≡◌};
ghost use Rattle.languages.specs.Answers.{fault_of};

use terms::fault::Fault;

#[derive(Clone, Copy, Debug, PartialEq, Eq)]
pub enum Refusal {
    // a layer that does not stand above what is below it takes no load
    NotAbove { layer: u32 },
    // a load of more words than the language takes at this layer
    TooLong { layer: u32, most: usize },
    // the words are not one well-formed term: the first place that cannot stand
    NoTerm { layer: u32, place: usize },
    // a mark of the layer or a lower one, at this place
    LowMark { layer: u32, place: usize },
    // a form of the layer that no rule matches, at this place
    Unmatched { layer: u32, place: usize },
    // the expansion has more words than may be passed on
    ExpansionTooLong { layer: u32 },
    // a form that the stepper lacks, at this place
    NoSuchForm { place: usize },
    // a step or a show while nothing is held
    NothingHeld,
    // the buffer that was lent for a show is too short
    ShortBuffer { height: u32, length: usize },
}

const NOT_ABOVE: u32 = 20;

const TOO_LONG: u32 = 21;

const NO_TERM: u32 = 22;

const LOW_MARK: u32 = 23;

const UNMATCHED: u32 = 24;

const EXPANSION_TOO_LONG: u32 = 25;

const NO_SUCH_FORM: u32 = 26;

const NOTHING_HELD: u32 = 30;

const SHORT_BUFFER: u32 = 31;
// The layer of a stepper, below all lists.
pub const STEPPER: u32 = 0;

// The refusal's cause, layer and place.
impl From<Refusal> for Fault {
    ghost from_gives = { λ refusal fault. fault ≡ fault_of refusal };

    fn from(refusal: Refusal) -> Fault {
        let (cause, layer, place) = match refusal {
            Refusal::NotAbove { layer } => (NOT_ABOVE, layer, 0),
            Refusal::TooLong { layer, most } => (TOO_LONG, layer, most),
            Refusal::NoTerm { layer, place } => (NO_TERM, layer, place),
            Refusal::LowMark { layer, place } => (LOW_MARK, layer, place),
            Refusal::Unmatched { layer, place } => (UNMATCHED, layer, place),
            Refusal::ExpansionTooLong { layer } => (EXPANSION_TOO_LONG, layer, 0),
            Refusal::NoSuchForm { place } => (NO_SUCH_FORM, STEPPER, place),
            Refusal::NothingHeld => (NOTHING_HELD, STEPPER, 0),
            Refusal::ShortBuffer { height, length } => (SHORT_BUFFER, height, length),
        };
        Fault {
            cause,
            layer,
            place: place as u64,
        }
    }
}
