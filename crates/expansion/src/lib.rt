// Expansion by one accepted list, and the way back.

#![tactic(auto)]

pub mod laws;
