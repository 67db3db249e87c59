// A refusal by its numbers.

// Every refusal of a list, a load, a step or a show has a cause, the layer that refused, and a place.
// The rules give these as numbers; the refusals themselves are enums that are turned into them.
#[derive(Clone, Copy, Debug, PartialEq, Eq)]
pub struct Fault {
    pub cause: u32,
    pub layer: u32,
    pub place: u64,
}
