// Makes a list of calls of any language, and answers with the list of answers. Its contract is the promise over whole runs.
ghost use Rattle.std.specs.Prelude.{◌≡◌, Ok, Err};
ghost use Rattle.languages.specs.Promise.{Gives, Ran, request_of, reply_of};

use crate::calls::{Answer, Call};
use crate::language::Language;
use std::alloc::{AllocError, Global};

// Makes one call. A match on the kind of call, since calls are values of a list.
fn make<L: Language>(language: &mut L, call: Call) -> Answer
    ensures answer { Gives (L.Language.meaning language.old) (L.Language.held language.old) (request_of call) (reply_of result) (L.Language.held language.new) }
    ensures stays { L.Language.meaning language.new ≡ L.Language.meaning language.old }
{
    match call {
        Call::Load(words) => Answer::Load(language.load(&words)),
        Call::Step(inputs) => Answer::Step(language.step(inputs)),
        Call::Show(mut buffer) => {
            let shown = language.show(&mut buffer);
            Answer::Show(shown, buffer)
        }
    }
}

// Makes the calls in order. Room for the answers is taken first: where there is none, no call is made.
pub fn run<L: Language>(
    heap: Global,
    language: &mut L,
    calls: Vec<Call>,
) -> Result<Vec<Answer>, AllocError>
    ensures promise { elim result [ Ok answers ↦ Ran (L.Language.meaning language.old) (L.Language.held language.old) (L.Language.held language.new) calls.items answers.items | Err e ↦ L.Language.held language.new ≡ L.Language.held language.old ] }
    ensures stays { L.Language.meaning language.new ≡ L.Language.meaning language.old }
{
    let mut answers = Vec::with_capacity(heap, calls.len())?;
    for call in calls {
        answers.push_reserved(make(language, call));
    }
    Ok(answers)
}
