// Terms of 1,024 words: a shallow one, and one of 1,000 levels.
use std::alloc::{AllocError, Global};
use terms::word::Word;

const ATOM: Word = Word {
    label: 0,
    payload: 0,
};

const NOT: Word = Word {
    label: 17,
    payload: 1,
};
// The label of a form with up to 8 children.
const FORM: u32 = 32;

const WIDE: Word = Word {
    label: FORM,
    payload: 8,
};

// The word, so many times.
pub fn push_many(words: &mut Vec<u32>, word: Word, count: usize) -> Result<(), AllocError> {
    words.resize(words.len().saturating_add(count), u32::from(word))
}

// 9 + leaves words: a form over a form with so many atoms, and seven atoms.
fn push_small(words: &mut Vec<u32>, leaves: u8) -> Result<(), AllocError> {
    let inner = Word {
        label: FORM,
        payload: u32::from(leaves),
    };
    push_many(words, WIDE, 1)?;
    push_many(words, inner, 1)?;
    push_many(words, ATOM, usize::from(leaves))?;
    push_many(words, ATOM, 7)
}

// 122 + leaves words: a form over eight such parts, the last with so many leaves.
fn push_large(words: &mut Vec<u32>, leaves: u8) -> Result<(), AllocError> {
    push_many(words, WIDE, 1)?;
    for _ in 0..7 {
        push_small(words, 7)?;
    }
    push_small(words, leaves)
}

// Five levels.
pub fn shallow(heap: Global) -> Result<Vec<u32>, AllocError> {
    let mut words = Vec::new(heap);
    push_many(&mut words, WIDE, 1)?;
    for _ in 0..7 {
        push_large(&mut words, 6)?;
    }
    push_large(&mut words, 5)?;
    Ok(words)
}

// 1,000 levels: a form whose last child is a chain of 999 words; the seven before it have 24.
pub fn deep(heap: Global) -> Result<Vec<u32>, AllocError> {
    let mut words = Vec::new(heap);
    push_many(&mut words, WIDE, 1)?;
    for _ in 0..2 {
        push_many(&mut words, WIDE, 1)?;
        push_many(&mut words, ATOM, 8)?;
    }
    push_many(&mut words, NOT, 1)?;
    push_many(&mut words, ATOM, 5)?;
    push_many(&mut words, NOT, 998)?;
    push_many(&mut words, ATOM, 1)?;
    Ok(words)
}
