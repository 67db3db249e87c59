// Terms as runs of 32-bit words in preorder: what a word says, where a term ends, where its arguments stand.

#![tactic(auto)]

pub mod fault;
pub mod front;
pub mod laws;
pub mod word;
pub mod words;
