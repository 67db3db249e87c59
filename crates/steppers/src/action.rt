// What a step does at a node. Forms are told by their labels, since a term may have forms that its stepper lacks.

// What is seen of a term: the node inside its marks.
#[derive(Clone, Copy, Debug, PartialEq, Eq)]
pub enum Seen {
    // a number, with its value
    Number(u32),
    // a form, with its label
    Form(u32),
}

// What takes the place of a node. Nodes that a step makes have no marks; a child comes with its own.
#[derive(Clone, Copy, Debug, PartialEq, Eq)]
pub enum Made {
    Number(u32),
    // a form without children
    Leaf(u32),
    // a child of the node
    Child(usize),
    // one round of a repetition: first(body, again(count, body)), where body is a child of the node
    Round {
        first: u32,
        again: u32,
        count: u32,
        body: usize,
    },
}

#[derive(Clone, Copy, Debug, PartialEq, Eq)]
pub enum Action {
    // this child is stepped instead
    Child(usize),
    // the node is replaced, together with the marks directly around it
    Replace { effect: u32, by: Made },
    // the step has moved, and the term stays
    Wait,
    // there is no step
    Stuck,
}
