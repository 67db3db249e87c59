// The node that a word of a term stands for.
ghost use Rattle.std.specs.Prelude.{◌≡◌, ◌+◌};
ghost use Rattle.terms.specs.Words.{is_layer, node_of, arity_of, form_at, head_at};

pub use crate::word::{LABEL_UNIT, LAST_LABEL};

pub const ATOM: u32 = 0;

pub const VARIABLE: u32 = 2;

pub const BODY: u32 = 3;

pub const HEAD: u32 = 4;

pub const FIRST_FORM: u32 = 16;

// Variables are numbered 0 to 7.
pub const VARIABLES: u32 = 8;

pub const MOST_CHILDREN: u32 = 8;

pub const FIRST_LAYER: u32 = 1;

pub const LAST_LAYER: u32 = 6;
// A head mark's payload is layer × HEAD_LAYER_UNIT + rule × HEAD_RULE_UNIT + dropped.
const HEAD_LAYER_UNIT: u32 = 65_536;

const HEAD_RULE_UNIT: u32 = 256;

const RULES: u32 = 32;

const MOST_DROPPED: u32 = 8;

// What a word stands for.
#[derive(Clone, Copy, Debug, PartialEq, Eq)]
pub enum Node {
    // a number, the only atom
    Atom { value: u32 },
    // stands in rules only
    Variable { index: u32 },
    // marks what a rule of the layer made: one child
    Body { layer: u32 },
    // marks what became of a form of the layer: the dropped terms, then the inside term
    Head { layer: u32, rule: u32, dropped: u32 },
    Form { label: u32, count: u32 },
}

impl Node {
    // How many children follow the node.
    pub fn children(self) -> u64
        ensures { result ≡ arity_of self }
    {
        match self {
            Node::Atom { .. } => 0,
            Node::Variable { .. } => 0,
            Node::Body { .. } => 1,
            Node::Head { dropped, .. } => u64::from(dropped) + 1,
            Node::Form { count, .. } => u64::from(count),
        }
    }
}

// Whether the number is that of a layer.
pub fn is_layer(number: u32) -> bool
    ensures { result ≡ is_layer number }
{
    (FIRST_LAYER..=LAST_LAYER).contains(&number)
}

fn head_node(payload: u32) -> Option<Node>
    ensures { result ≡ head_at payload }
{
    let layer = payload / HEAD_LAYER_UNIT;
    let rule = payload / HEAD_RULE_UNIT % HEAD_RULE_UNIT;
    let dropped = payload % HEAD_RULE_UNIT;
    if !is_layer(layer) || rule >= RULES || dropped > MOST_DROPPED {
        return None;
    }
    Some(Node::Head {
        layer,
        rule,
        dropped,
    })
}

fn form_node(label: u32, count: u32) -> Option<Node>
    ensures { result ≡ form_at label count }
{
    if !(FIRST_FORM..=LAST_LABEL).contains(&label) || count > MOST_CHILDREN {
        return None;
    }
    Some(Node::Form { label, count })
}

// The node that a word stands for; none where its label or payload has no meaning.
// It is an Option, as `char::from_u32` gives, which every caller passes on or takes for "no such node" at once.
pub fn decode(word: u32) -> Option<Node>
    ensures { result ≡ node_of word }
{
    // not by `Word`, which makes the end finder slower by half on wide terms
    let label = word / LABEL_UNIT;
    let payload = word % LABEL_UNIT;
    match label {
        ATOM => Some(Node::Atom { value: payload }),
        VARIABLE if payload < VARIABLES => Some(Node::Variable { index: payload }),
        BODY if is_layer(payload) => Some(Node::Body { layer: payload }),
        HEAD => head_node(payload),
        _ => form_node(label, payload),
    }
}
