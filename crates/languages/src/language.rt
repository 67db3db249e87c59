// The trait of a language: it holds nothing or one core term, and loads, steps and shows by its meaning.
ghost use Rattle.std.specs.Prelude.{◌≡◌, Option};
ghost use Rattle.terms.specs.Trees.{Tree};
ghost use Rattle.languages.specs.Meaning.{Meaning};
ghost use Rattle.languages.specs.Calls.{Loads, StepGives, BufferShowGives};
ghost use Rattle.languages.specs.Laws.{Laws};

use crate::answers::{Loaded, Stepped};
use crate::refusal::Refusal;

// The least length of a buffer that is lent for a show, and the most words of a term that is shown.
pub const SHOWN_WORDS: usize = 1024;

pub trait Language {
    // The expansion, the step rule and the capacity. No call changes them, which each says in its own contract.
    ghost meaning: { Self → Meaning };

    // What is held: nothing, as when new, or one core term.
    ghost held: { Self → Option Tree };

    // Holds the expansion of the words, or refuses them.
    fn load(&mut self, words: &[u32]) -> Result<Loaded, Refusal>
        ensures answer { Loads (meaning self.old) words.now (held self.old) result (held self.new) }
        ensures stays { meaning self.new ≡ meaning self.old };

    // One step of the term that is held. Bit n of the inputs is input n.
    fn step(&mut self, inputs: u32) -> Result<Stepped, Refusal>
        ensures answer { StepGives (meaning self.old) inputs (held self.old) result (held self.new) }
        ensures stays { meaning self.new ≡ meaning self.old };

    // Writes the term that expands to what is held into the buffer, and answers how many words it has, or none.
    // The buffer is the caller's and a runtime's memory is fixed, so what is shown is no Vec.
    fn show(&mut self, buffer: &mut [u32]) -> Result<Option<usize>, Refusal>
        ensures answer { BufferShowGives (meaning self.old) (held self.old) buffer.old result buffer.new }
        ensures keeps { held self.new ≡ held self.old }
        ensures stays { meaning self.new ≡ meaning self.old };

    ghost laws: { (x : Self) → Laws (meaning x) };
}
