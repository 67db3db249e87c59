// Looking at a term: the node inside its marks.
ghost use Rattle.std.specs.Prelude.{◌≡◌};
ghost use Rattle.terms.specs.Words.{node_of};
ghost use Rattle.steppers.specs.Placed.{dropped_by, seen_by, form_count, InsideOf, SeenOf, StartOf, SeenChild};

use crate::action::Seen;
use crate::walk::first_stop;
use terms::front::skip;
use terms::words::{Node, decode};

// How many dropped terms stand behind a mark; none behind any other word.
fn dropped_by(word: u32) -> Option<usize>
    ensures { result ≡ dropped_by (node_of word) }
{
    match decode(word)? {
        Node::Body { .. } => Some(0),
        Node::Head { dropped, .. } => Some(dropped as usize),
        _ => None,
    }
}

// How many words of marks the term at the front of the words begins with, dropped terms counted.
// Written out where it is called: a step calls it twice at each level of a term, and is slower by a third with calls.
#[inline(always)]
pub(crate) fn inside(words: &[u32]) -> usize
    ensures { InsideOf words.now result }
{
    first_stop(words, dropped_by).unwrap_or(words.len())
}

// What is seen of a node.
fn seen_by(word: u32) -> Option<Seen>
    ensures { result ≡ seen_by (node_of word) }
{
    match decode(word)? {
        Node::Atom { value } => Some(Seen::Number(value)),
        Node::Form { label, .. } => Some(Seen::Form(label)),
        _ => None,
    }
}

// What is seen of the term at the front of the words.
pub fn look(words: &[u32]) -> Option<Seen>
    ensures { SeenOf words.now result }
{
    let word = words.get(inside(words))?;
    seen_by(*word)
}

// How many children a form has.
fn form_count(word: u32) -> Option<usize>
    ensures { result ≡ form_count (node_of word) }
{
    match decode(word)? {
        Node::Form { count, .. } => Some(count as usize),
        _ => None,
    }
}

// Where child i of the form that the words begin with begins.
// Written out where it is called, as `inside` is, since a step calls it at each level of a term.
#[inline(always)]
pub(crate) fn child_start(node: &[u32], i: usize) -> Option<usize>
    ensures { StartOf node.now i result }
{
    let (word, behind) = node.split_first()?;
    let count = form_count(*word)?;
    if i >= count {
        return None;
    }
    let Ok(skipped) = skip(behind, i) else {
        return None;
    };
    Some(1 + skipped)
}

// What is seen of child i of the form that the words begin with.
pub fn look_at_child(node: &[u32], i: usize) -> Option<Seen>
    ensures { SeenChild node.now i result }
{
    let start = child_start(node, i)?;
    look(&node[start..])
}
