// Words written as label:payload with spaces between them, and terms of a given length.
use std::alloc::{AllocError, Global};
use terms::word::Word;

const SEQ: Word = Word {
    label: 32,
    payload: 2,
};

const SET: Word = Word {
    label: 33,
    payload: 1,
};

const REPEAT: Word = Word {
    label: 36,
    payload: 2,
};

const NOP: Word = Word {
    label: 38,
    payload: 0,
};

const ZERO: Word = Word {
    label: 0,
    payload: 0,
};

const ONE: Word = Word {
    label: 0,
    payload: 1,
};

// The words of a text.
pub fn spelled(heap: Global, text: &str) -> Result<Vec<u32>, AllocError> {
    let mut words = Vec::new(heap);
    for word in text.split(' ').filter_map(|part| part.parse::<Word>().ok()) {
        words.push(u32::from(word))?;
    }
    Ok(words)
}

// A term of the sequence language without marks, of this many words, at least one: SEQ(NOP, SEQ(NOP, ..)).
pub fn chain(heap: Global, length: usize) -> Result<Vec<u32>, AllocError> {
    let mut words = Vec::new(heap);
    for _ in 1..length.div_ceil(2) {
        words.push(u32::from(SEQ))?;
        words.push(u32::from(NOP))?;
    }
    if length % 2 == 0 {
        words.push(u32::from(SET))?;
        words.push(u32::from(ONE))?;
    } else {
        words.push(u32::from(NOP))?;
    }
    Ok(words)
}

// REPEAT(1, body).
pub fn repeated(heap: Global, body: &[u32]) -> Result<Vec<u32>, AllocError> {
    let mut words = Vec::new(heap);
    words.push(u32::from(REPEAT))?;
    words.push(u32::from(ONE))?;
    words.extend_from_slice(body)?;
    Ok(words)
}

// SEQ(body, REPEAT(0, body)).
pub fn unrolled(heap: Global, body: &[u32]) -> Result<Vec<u32>, AllocError> {
    let mut words = Vec::new(heap);
    words.push(u32::from(SEQ))?;
    words.extend_from_slice(body)?;
    words.push(u32::from(REPEAT))?;
    words.push(u32::from(ZERO))?;
    words.extend_from_slice(body)?;
    Ok(words)
}
