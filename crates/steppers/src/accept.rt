// Whether a stepper loads a run of words.
ghost use Rattle.std.specs.Prelude.{◌≡◌};
ghost use Rattle.terms.specs.Words.{node_of};
ghost use Rattle.steppers.specs.Written.{passed_by, LacksAt, Admitted};

use crate::stepper::Stepper;
use crate::walk::first_stop;
use languages::refusal::{Refusal, STEPPER};
use terms::front::whole;
use terms::words::{Node, decode};

// How many dropped terms to pass over behind a node; none at a form that the stepper lacks.
fn passed_by<S: Stepper>(word: u32) -> Option<usize>
    ensures { result ≡ passed_by S.Stepper.table.has (node_of word) }
{
    match decode(word) {
        Some(Node::Form { label, count }) => {
            if S::has_form(label, count) {
                Some(0)
            } else {
                None
            }
        }
        Some(Node::Head { dropped, .. }) => Some(dropped as usize),
        _ => Some(0),
    }
}

// The place of the first form outside dropped terms that the stepper lacks, in the words of a term.
fn lacking<S: Stepper>(words: &[u32]) -> Option<usize>
    ensures { LacksAt S.Stepper.table.has words.now result }
{
    first_stop(words, |word| passed_by::<S>(word))
}

// Admits the words of a term that the stepper can hold.
pub(crate) fn admit<S: Stepper>(words: &[u32]) -> Result<(), Refusal>
    ensures { Admitted S.Stepper.table words.now result }
{
    if words.len() > S::CAPACITY {
        return Err(Refusal::TooLong {
            layer: STEPPER,
            most: S::CAPACITY,
        });
    }
    if let Err(broken) = whole(words) {
        return Err(Refusal::NoTerm {
            layer: STEPPER,
            place: broken.place,
        });
    }
    match lacking::<S>(words) {
        Some(place) => Err(Refusal::NoSuchForm { place }),
        None => Ok(()),
    }
}
