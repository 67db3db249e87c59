// Memory for the words of one term.
ghost use Rattle.std.specs.Prelude.{◌≡◌, ℕ, ◌+◌, ◌<◌, ◌≤◌, List, [], ◌∷◌, ◌++◌, length, IfOk, vec_capacity};

use std::alloc::{AllocError, Global};
use std::marker::Model;

// The longest terms that a stepper may hold have so many words.
const MOST_WORDS: usize = 1024;

// Words, seen as their list. The memory for MOST_WORDS of them is taken when the room is made.
#[derive(Drop)]
pub(crate) struct Room {
    words: Vec<u32>,
}

impl Model for Room {
    ghost Value = { List ℕ };

    ghost view = { λ room. room.words.items };

    ghost invariant = { λ room. 1024 ≤ vec_capacity room.words };
}

impl Room {
    pub fn new(heap: Global) -> Result<Room, AllocError>
        ensures { IfOk result (λ room. room ≡ []) }
    {
        let words = Vec::with_capacity(heap, MOST_WORDS)?;
        Ok(Room { words })
    }

    pub fn as_slice(&self) -> &[u32]
        ensures { result.now ≡ self.now }
    {
        &self.words
    }

    pub fn clear(&mut self)
        ensures { self.new ≡ [] }
    {
        self.words.clear();
    }

    pub fn push(&mut self, word: u32)
        requires { length self.old < 1024 }
        ensures { self.new ≡ self.old ++ (word ∷ []) }
    {
        self.words.push_reserved(word);
    }

    pub fn append(&mut self, words: &[u32])
        requires { length self.old + length words.now ≤ 1024 }
        ensures { self.new ≡ self.old ++ words.now }
    {
        self.words.extend_from_slice(words).unwrap();
    }
}
