// The two core languages: the trait of a stepper, the machine that holds a stepper's term, and the steppers themselves.

#![tactic(auto)]

mod accept;
pub mod action;
mod change;
mod find;
pub mod laws;
pub mod logic;
pub mod look;
pub mod machine;
mod replacement;
mod room;
pub mod run;
pub mod sequence;
mod spot;
pub mod stepper;
mod walk;
