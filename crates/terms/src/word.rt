// A word by its parts: its label and its payload.
ghost use Rattle.std.specs.Prelude.{◌≡◌, ◌/◌, ◌%◌, ◌<◌, false, Some, None, MatchOption, MatchResult};
ghost use Rattle.texts.specs.Numbers.{number_of};
ghost use Rattle.terms.specs.Words.{word, is_parts};
ghost use Rattle.terms.specs.Spelled.{word_text, word_by, word_of};

use std::fmt;
use std::str::FromStr;
use texts::number::number;

// A word is label × LABEL_UNIT + payload.
pub const LABEL_UNIT: u32 = 16_777_216;

pub const LAST_LABEL: u32 = 255;

pub const LAST_PAYLOAD: u32 = LABEL_UNIT - 1;

#[derive(Clone, Copy, Debug, PartialEq, Eq)]
pub struct Word {
    pub label: u32,
    pub payload: u32,
    ghost labelled: { label < 256 },
    ghost loaded: { payload < 16777216 },
}

impl Word {
    // The word of these parts; none if one of them is out of range.
    pub fn new(label: u32, payload: u32) -> Option<Word>
        ensures { MatchOption result (is_parts label payload ≡ false) (λ w. (w.label ≡ label) × (w.payload ≡ payload)) }
    {
        if label > LAST_LABEL || payload > LAST_PAYLOAD {
            return None;
        }
        Some(Word { label, payload })
    }
}

impl From<u32> for Word {
    ghost from_gives = { λ w r. (r.label ≡ w / 16777216) × (r.payload ≡ w % 16777216) };

    fn from(word: u32) -> Word {
        Word {
            label: word / LABEL_UNIT,
            payload: word % LABEL_UNIT,
        }
    }
}

impl From<Word> for u32 {
    ghost from_gives = { λ w r. r ≡ word w.label w.payload };

    fn from(word: Word) -> u32 {
        word.label * LABEL_UNIT + word.payload
    }
}

// A word is written as label:payload.
impl fmt::Display for Word {
    ghost output = { λ w. Some (word_text w.label w.payload) };

    fn fmt<W: fmt::Write>(&self, f: &mut fmt::Formatter<W>) -> fmt::Result {
        let label = self.label;
        let payload = self.payload;
        write!(f, "{label}:{payload}")
    }
}

// The text is no word.
#[derive(Clone, Copy, Debug, PartialEq, Eq)]
pub struct NoWord;

// The word of a label and a payload, which the texts spell.
#[tactic(auto, using(texts::proofs::Digited::number_within))]
fn word_by(label: &str, payload: &str) -> Option<Word>
    ensures { MatchOption result
        (word_by (number_of 255 label.now) (number_of 16777215 payload.now) ≡ None)
        (λ w. word_by (number_of 255 label.now) (number_of 16777215 payload.now) ≡ Some (word w.label w.payload)) }
{
    Some(Word {
        label: number(label.as_bytes(), LAST_LABEL)?,
        payload: number(payload.as_bytes(), LAST_PAYLOAD)?,
    })
}

// A word is read as label:payload.
impl FromStr for Word {
    type Err = NoWord;

    ghost from_str_gives = { λ text r. MatchResult r (λ w. word_of text ≡ Some (word w.label w.payload)) (λ _. word_of text ≡ None) };

    fn from_str(text: &str) -> Result<Word, NoWord> {
        let Some((label, payload)) = text.split_once(':') else {
            return Err(NoWord);
        };
        word_by(label, payload).ok_or(NoWord)
    }
}
