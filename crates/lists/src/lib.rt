// Rule lists: the two texts that a list comes as, and the list that they are accepted as.

#![tactic(auto)]

mod accept;
mod faults;
mod header;
mod layer;
mod lines;
pub mod list;
pub mod parts;
pub mod refusal;
mod sides;
mod table;
