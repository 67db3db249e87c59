// A call of a language and its answer, as values, so that a run of calls is a list.
use crate::answers::{Loaded, Stepped};
use crate::refusal::Refusal;

#[derive(Drop)]
pub enum Call {
    // the words to load
    Load(Vec<u32>),
    // the input image
    Step(u32),
    // the buffer that is lent
    Show(Vec<u32>),
}

#[derive(Drop)]
pub enum Answer {
    Load(Result<Loaded, Refusal>),
    Step(Result<Stepped, Refusal>),
    // with the buffer as it is afterwards
    Show(Result<Option<usize>, Refusal>, Vec<u32>),
}
