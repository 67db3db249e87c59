// The parts of a rule list, as plain data.
pub use crate::layer::LABELS;
use crate::layer::Layer;

pub const MOST_RULES: u32 = 32;

// A form that the list declares: its label, and how many children it has.
#[derive(Clone, Copy, Debug, PartialEq, Eq)]
pub struct Form {
    pub label: u32,
    pub count: u32,
}

// A rule: the words of its left side and of its right side.
#[derive(Debug, Drop, PartialEq, Eq)]
pub struct Rule {
    pub left: Vec<u32>,
    pub right: Vec<u32>,
}

// What the header's first line declares: the layer, how many forms, how many rules.
#[derive(Clone, Copy)]
pub(crate) struct Head {
    pub layer: Layer,
    pub forms: u32,
    pub rules: u32,
}

// A header: its first line, and the forms of its other lines.
#[derive(Drop)]
pub(crate) struct Header {
    pub head: Head,
    pub forms: Vec<Form>,
}
