// Reads the words of a load.
ghost use Rattle.std.specs.Prelude.{IfOk, MatchResult};
ghost use Rattle.replay.specs.Commands.{words_of};
ghost use Rattle.replay.specs.Numbers.{Spell, NoWordFirst};

use crate::command::next_word;
use std::alloc::{AllocError, Global};
use terms::word::Word;

// The words that the text spells, each as label:payload; or the first of its words that is no such word.
pub fn read_words<'a>(heap: Global, text: &'a str) -> Result<Result<Vec<u32>, &'a str>, AllocError>
    ensures { IfOk result (λ x. MatchResult x (λ v. Spell (words_of text.now) v.items) (λ w. NoWordFirst (words_of text.now) w.now)) }
{
    let mut words = Vec::new(heap);
    let mut rest = text;
    while let Some((first, behind)) = next_word(rest) {
        let Ok(word) = first.parse::<Word>() else {
            return Ok(Err(first));
        };
        words.push(u32::from(word))?;
        rest = behind;
    }
    Ok(Ok(words))
}
