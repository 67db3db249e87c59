// The texts of a rule list: lines and fields as stretches of the text, and what each line says.

#![tactic(auto)]

pub mod laws;
pub mod number;
pub mod text;
