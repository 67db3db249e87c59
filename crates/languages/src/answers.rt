// What an accepted load and a step answer.
ghost use Rattle.std.specs.Prelude.{◌≡◌, Some};
ghost use Rattle.languages.specs.Answers.{effect_of, loaded_text, stepped_text};

use std::fmt;

// An accepted load: how many words are held, and how many rules their expansion took.
#[derive(Clone, Copy, Debug, PartialEq, Eq)]
pub struct Loaded {
    pub words: usize,
    pub uses: u64,
}

impl fmt::Display for Loaded {
    ghost output = { λ l. Some (loaded_text l) };

    fn fmt<W: fmt::Write>(&self, f: &mut fmt::Formatter<W>) -> fmt::Result {
        let Loaded { words, uses } = *self;
        write!(f, "words {words}, uses {uses}")
    }
}

// A step that was not refused.
#[derive(Clone, Copy, Debug, PartialEq, Eq)]
pub enum Stepped {
    Moved { effect: u32 },
    Ended,
    Stuck,
    // it would have moved, but the next term has more words than the language can hold
    Full,
}

impl Stepped {
    // What the step switches; 0 is nothing.
    pub fn effect(self) -> u32
        ensures { result ≡ effect_of self }
    {
        match self {
            Stepped::Moved { effect } => effect,
            Stepped::Ended | Stepped::Stuck | Stepped::Full => 0,
        }
    }
}

impl fmt::Display for Stepped {
    ghost output = { λ s. Some (stepped_text s) };

    fn fmt<W: fmt::Write>(&self, f: &mut fmt::Formatter<W>) -> fmt::Result {
        match *self {
            Stepped::Moved { effect } => write!(f, "moved, effect {effect}"),
            Stepped::Ended => write!(f, "ended"),
            Stepped::Stuck => write!(f, "stuck"),
            Stepped::Full => write!(f, "full"),
        }
    }
}
