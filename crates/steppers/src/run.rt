// The machine as a language: it loads, steps and shows.
ghost use Rattle.std.specs.Prelude.{◌≡◌, ◌≤◌, ◌++◌, length, drop, IfOk, None};
ghost use Rattle.terms.specs.Trees.{term_of};
ghost use Rattle.steppers.specs.Loads.{meaning_of};
ghost use Rattle.steppers.specs.Placed.{OverAt};
ghost use Rattle.steppers.specs.Loading.{laws_of};

use crate::accept::admit;
use crate::action::Action;
use crate::change::replace;
use crate::find::find;
use crate::look::look;
use crate::machine::Machine;
use crate::room::Room;
use crate::stepper::Stepper;
use languages::answers::{Loaded, Stepped};
use languages::language::{Language, SHOWN_WORDS};
use languages::refusal::{Refusal, STEPPER};
use std::alloc::{AllocError, Global};

// Whether the whole term has ended.
fn is_over<S: Stepper>(term: &[u32]) -> bool
    ensures { OverAt S.Stepper.table term.now result }
{
    look(term).is_some_and(|seen| S::has_ended(seen))
}

// Writes the term into the buffer's first words.
fn write_shown(buffer: &mut [u32], term: &[u32])
    requires { length term.now ≤ length buffer.old }
    ensures { buffer.new ≡ term.now ++ drop (length term.now) buffer.old }
{
    let count = term.len();
    buffer[0..count].copy_from_slice(term);
}

impl<S: Stepper + Drop> Machine<S> {
    // A machine that holds nothing.
    pub fn new(heap: Global, stepper: S) -> Result<Machine<S>, AllocError>
        ensures { IfOk result (λ machine. term_of machine.term ≡ None) }
    {
        Ok(Machine {
            stepper,
            term: Room::new(heap)?,
            next: Room::new(heap)?,
        })
    }
}

impl<S: Stepper + Drop> Language for Machine<S> {
    ghost meaning = { λ x. meaning_of S.Stepper.table };

    ghost held = { λ x. term_of x.term };

    ghost laws = { λ x. laws_of S.Stepper.table S.Stepper.sound };

    fn load(&mut self, words: &[u32]) -> Result<Loaded, Refusal> {
        admit::<S>(words)?;
        self.term.clear();
        self.term.append(words);
        Ok(Loaded {
            words: words.len(),
            uses: 0,
        })
    }

    fn step(&mut self, inputs: u32) -> Result<Stepped, Refusal> {
        let term = self.term.as_slice();
        if term.is_empty() {
            return Err(Refusal::NothingHeld);
        }
        if is_over::<S>(term) {
            return Ok(Stepped::Ended);
        }
        let spot = find::<S>(term, inputs);
        match spot.action {
            Action::Replace { effect, by } => {
                if replace(&mut self.term, &mut self.next, spot, by, S::CAPACITY) {
                    Ok(Stepped::Moved { effect })
                } else {
                    Ok(Stepped::Full)
                }
            }
            // the next term is the term itself
            Action::Wait => Ok(Stepped::Moved { effect: 0 }),
            Action::Child(_) | Action::Stuck => Ok(Stepped::Stuck),
        }
    }

    fn show(&mut self, buffer: &mut [u32]) -> Result<Option<usize>, Refusal> {
        if buffer.len() < SHOWN_WORDS {
            return Err(Refusal::ShortBuffer {
                height: STEPPER,
                length: buffer.len(),
            });
        }
        let term = self.term.as_slice();
        if term.is_empty() {
            return Err(Refusal::NothingHeld);
        }
        write_shown(buffer, term);
        Ok(Some(term.len()))
    }
}
