// The machine: one term of a stepper, and the memory for the next.
ghost use Rattle.std.specs.Prelude.{◌≡◌, true};
ghost use Rattle.steppers.specs.Loads.{holdable_by};

use crate::room::Room;
use crate::stepper::Stepper;

// Holds the words of one term that the stepper loads, or none. The memory for both runs of words is taken when the machine is made.
#[derive(Drop)]
pub struct Machine<S: Stepper> {
    pub(crate) stepper: S,
    // no words where nothing is held: an Option would give up the memory that was taken when the machine was made
    pub(crate) term: Room,
    // where the next term is written
    pub(crate) next: Room,
    ghost holds: { holdable_by S.Stepper.table term ≡ true },
}
