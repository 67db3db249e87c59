// Words a refusal: its numbers, and the fixed sentence of its cause.
ghost use Rattle.std.specs.Prelude.{◌≡◌, ℕ, List, Some};
ghost use Rattle.terms.specs.declared.fault.Fault.{Fault};
ghost use Rattle.lists.specs.Refusals as of_lists;
ghost use Rattle.languages.specs.Answers as of_calls;
ghost use Rattle.replay.specs.Account.{sentence_of, call_sentence, refused_text};

use languages::refusal::Refusal as CallRefusal;
use lists::refusal::Refusal as ListRefusal;
use std::fmt;
use terms::fault::Fault;

// A refusal that the account can tell.
pub trait Explained: Copy {
    ghost fault: { Self → Fault };

    ghost sentence: { Self → List ℕ };

    // Its cause, layer and place.
    fn fault(self) -> Fault
        ensures { result ≡ fault self };

    // The fixed sentence of its cause.
    fn sentence(self) -> &'static str
        ensures { result.now ≡ sentence self };
}

impl Explained for ListRefusal {
    ghost fault = { of_lists.fault_of };

    ghost sentence = { λ r. sentence_of (of_lists.fault_of r).cause };

    fn fault(self) -> Fault {
        Fault::from(self)
    }

    fn sentence(self) -> &'static str {
        match self {
            ListRefusal::TextTooLong => "a text has more than 16,384 bytes",
            ListRefusal::LineBroken(_) => "a line breaks its pattern or a range",
            ListRefusal::LineMissing(_) | ListRefusal::LineExtra(_) | ListRefusal::TableDiffers =>
                "a line is missing or stands past the declared count",
            ListRefusal::WrongShape(_) => "a side of a rule has the wrong shape",
            ListRefusal::WrongVariables(_) => {
                "a variable stands twice on a side, or on the right alone"
            }
            ListRefusal::Overlap(_) => "a rule overlaps an earlier one",
            ListRefusal::NoRule(_) => "a form has no rule",
            ListRefusal::NoMemory => "there was no memory to read the list into",
        }
    }
}

impl Explained for CallRefusal {
    ghost fault = { of_calls.fault_of };

    ghost sentence = { λ r. call_sentence (of_calls.fault_of r).cause };

    fn fault(self) -> Fault {
        Fault::from(self)
    }

    fn sentence(self) -> &'static str {
        match self {
            CallRefusal::NotAbove { .. } => "the layer does not stand above what is below it",
            CallRefusal::TooLong { .. } => "the term has more words than may be loaded",
            CallRefusal::NoTerm { .. } => "the words are not one well-formed term",
            CallRefusal::LowMark { .. } => {
                "a mark of this layer or a lower one stands in the term"
            }
            CallRefusal::Unmatched { .. } => "no rule matches a form of this layer",
            CallRefusal::ExpansionTooLong { .. } => {
                "the expansion has more words than may be held"
            }
            CallRefusal::NoSuchForm { .. } => {
                "the core language has no form with this label and count"
            }
            CallRefusal::NothingHeld => "nothing is held",
            CallRefusal::ShortBuffer { .. } => "the buffer has fewer than 1,024 words",
        }
    }
}

#[derive(Clone, Copy)]
pub struct Refused<R>(pub R);

impl<R: Explained> fmt::Display for Refused<R> {
    ghost output = { λ x. Some (refused_text (R.fault x.0) (R.sentence x.0)) };

    fn fmt<W: fmt::Write>(&self, f: &mut fmt::Formatter<W>) -> fmt::Result {
        let Fault {
            cause,
            layer,
            place,
        } = self.0.fault();
        let sentence = self.0.sentence();
        write!(
            f,
            "refused, cause {cause}, layer {layer}, place {place}: {sentence}"
        )
    }
}
