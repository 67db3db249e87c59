// What a language is: the trait of one, its meaning and its laws, and the promise over whole runs of calls.

#![tactic(auto)]

pub mod answers;
pub mod calls;
pub mod language;
pub mod refusal;
pub mod run;
