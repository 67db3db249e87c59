// Where the term at the front of a run of words ends, and where its arguments stand.
ghost use Rattle.std.specs.Prelude.{◌≡◌, true, false};
ghost use Rattle.terms.specs.Words.{node_of};
ghost use Rattle.terms.specs.Fronts.{wants, ending, wholly, is_tree, child_at};
ghost use Rattle.terms.specs.Laws.{Ends, Whole, OneTree, Answered};

use crate::words::{Node, decode};

// The first place of a run that cannot stand; the run's length, if it ends early.
#[derive(Clone, Copy, Debug, PartialEq, Eq)]
pub struct Broken {
    pub place: usize,
}

// How many children the word wants; none if it cannot stand. A variable stands only where variables may.
fn wanted_by(word: u32, variables: bool) -> Option<u64>
    ensures { result ≡ wants variables (node_of word) }
{
    match decode(word)? {
        Node::Variable { .. } if !variables => None,
        node => Some(node.children()),
    }
}

// Where the first trees of the run end, if so many are there.
fn trees_end(words: &[u32], trees: usize, variables: bool) -> Result<usize, Broken>
    ensures value { result ≡ ending variables trees words.now }
    ensures law { trees ≡ 1 → Ends variables words.now result }
{
    // A word wants at most nine, so that this count holds for a run of any length.
    let mut wanted = trees as u128;
    for (i, word) in words.iter().enumerate() {
        if wanted == 0 {
            return Ok(i);
        }
        let Some(children) = wanted_by(*word, variables) else {
            return Err(Broken { place: i });
        };
        wanted = wanted - 1 + u128::from(children);
    }
    if wanted == 0 {
        Ok(words.len())
    } else {
        Err(Broken { place: words.len() })
    }
}

// A run that is one tree, with nothing behind it.
fn one_tree(words: &[u32], variables: bool) -> Result<(), Broken>
    ensures value { result ≡ wholly variables words.now }
    ensures law { Whole variables words.now result }
{
    let end = trees_end(words, 1, variables)?;
    if end == words.len() {
        Ok(())
    } else {
        Err(Broken { place: end })
    }
}

// Where the term at the front of the run ends.
pub fn end(words: &[u32]) -> Result<usize, Broken>
    ensures value { result ≡ ending false 1 words.now }
    ensures law { Ends false words.now result }
{
    trees_end(words, 1, false)
}

// Where the first terms of the run end, if so many are there.
pub fn skip(words: &[u32], terms: usize) -> Result<usize, Broken>
    ensures { result ≡ ending false terms words.now }
{
    trees_end(words, terms, false)
}

// Whether the run is one well-formed term, and if not, the place that cannot stand.
pub fn whole(words: &[u32]) -> Result<(), Broken>
    ensures value { result ≡ wholly false words.now }
    ensures law { Whole false words.now result }
{
    one_tree(words, false)
}

// Whether the run is one tree in which variables may stand, as on a side of a rule.
pub fn is_tree(words: &[u32]) -> bool
    ensures value { result ≡ is_tree words.now }
    ensures law { OneTree words.now result }
{
    one_tree(words, true).is_ok()
}

// Child i, from 0, of the node that the run begins with: the stretch of the given words that it is.
pub fn argument(words: &[u32], i: usize) -> Option<&[u32]>
    ensures { Answered words.now (child_at i words.now) result }
{
    let (word, behind) = words.split_first()?;
    if i as u64 >= wanted_by(*word, false)? {
        return None;
    }
    let skipped = trees_end(behind, i, false).ok()?;
    let child = &behind[skipped..];
    let size = end(child).ok()?;
    Some(&child[..size])
}
