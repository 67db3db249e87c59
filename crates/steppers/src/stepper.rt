// The trait of a stepper: its capacity, its forms, and its step table.
ghost use Rattle.std.specs.Prelude.{◌≡◌, ℕ};
ghost use Rattle.steppers.specs.Table.{Table, Sound, ActsAt};

use crate::action::{Action, Seen};

// A form is told by its label, as words have it: who asks about a form need not know which forms a stepper has.
pub trait Stepper {
    // How many words the stepper can hold, 1 to 1,024.
    const CAPACITY: usize;

    // The same number, as proofs over any stepper read it.
    ghost CAPACITY: { ℕ };

    // The capacity, the forms and the step table, as definitions.
    ghost table: { Table };

    // Whether the stepper has the form with this count of children.
    fn has_form(label: u32, count: u32) -> bool
        ensures { result ≡ table.has label count };

    // Whether a whole term that is seen so has ended.
    fn has_ended(seen: Seen) -> bool
        ensures { result ≡ table.over seen };

    // What a step does at a form; the words begin with it. A stepper says it by a match, with a line for each form.
    fn act(label: u32, node: &[u32], inputs: u32) -> Action
        ensures { ActsAt table.acts label node.now inputs result };

    ghost same_capacity: { table.capacity ≡ CAPACITY };

    ghost sound: { Sound table };
}
