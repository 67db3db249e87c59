// Where in the words of a term a step acts, and how.
use crate::action::Action;

#[derive(Clone, Copy)]
pub(crate) struct Spot {
    // where the marks directly around the node begin
    pub outer: usize,
    // where the node itself begins
    pub node: usize,
    pub action: Action,
}
