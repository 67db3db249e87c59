// Words the answers of loads and steps, and a term that is shown.
ghost use Rattle.std.specs.Prelude.{Some};
ghost use Rattle.std.specs.Fmt.{WritesOnOk};
ghost use Rattle.replay.specs.Panel.{load_text, step_text, behind_text, term_text};

use crate::account::{Accepted, Outcome};
use languages::answers::{Loaded, Stepped};
use languages::refusal::Refusal;
use std::fmt;
use terms::word::Word;

// The answer of a load.
#[derive(Clone, Copy)]
pub struct Load(pub Result<Loaded, Refusal>);

impl fmt::Display for Load {
    ghost output = { λ x. Some (load_text x.0) };

    fn fmt<W: fmt::Write>(&self, f: &mut fmt::Formatter<W>) -> fmt::Result {
        Outcome(self.0.map(Accepted)).fmt(f)
    }
}

// The answer of a step.
#[derive(Clone, Copy)]
pub struct Step(pub Result<Stepped, Refusal>);

impl fmt::Display for Step {
    ghost output = { λ x. Some (step_text x.0) };

    fn fmt<W: fmt::Write>(&self, f: &mut fmt::Formatter<W>) -> fmt::Result {
        Outcome(self.0).fmt(f)
    }
}

// Words that stand behind a word, with a space before each.
fn write_behind<W: fmt::Write>(f: &mut fmt::Formatter<W>, words: &[u32]) -> fmt::Result
    ensures { WritesOnOk W.Write.write_str_gives f.old result (behind_text words.now) f.new }
{
    for word in words {
        let word = Word::from(*word);
        write!(f, " {word}")?;
    }
    Ok(())
}

// A term that is shown: its words, with a space between two.
#[derive(Clone, Copy)]
pub struct Term<'a>(pub &'a [u32]);

impl fmt::Display for Term<'_> {
    ghost output = { λ x. Some (term_text x.0.now) };

    fn fmt<W: fmt::Write>(&self, f: &mut fmt::Formatter<W>) -> fmt::Result {
        let Some((first, behind)) = self.0.split_first() else {
            return Ok(());
        };
        let first = Word::from(*first);
        write!(f, "{first}")?;
        write_behind(f, behind)
    }
}
