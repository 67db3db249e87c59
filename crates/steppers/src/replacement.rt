// A node of a term, and what a step puts in its place.
ghost use Rattle.std.specs.Prelude.{◌≡◌, ◌+◌, ◌*◌, ◌<◌, ◌≤◌, ◌∷◌, ◌++◌, length, take, drop};
ghost use Rattle.terms.specs.Words.{word};
ghost use Rattle.steppers.specs.Written.{size_of, child_words, made_words, Wordable, Wordable-prop};

use crate::action::Made;
use crate::room::Room;
use crate::spot::Spot;
use terms::front::{argument, end};
use terms::word::Word;
use terms::words::ATOM;

// Both forms that a round of a repetition makes have two children.
const PAIR: u32 = 2;

// The words of a term of at most 1,024, in parts, with what is made in the node's place.
#[derive(Drop)]
pub(crate) struct Replacement<'a> {
    // in front of the node and of the marks directly around it
    pub front: &'a [u32],
    // from the node on
    pub node: &'a [u32],
    // behind the node
    pub behind: &'a [u32],
    pub by: Made,
    ghost few: { length front.now + length node.now ≤ 1024 },
    ghost within: { length behind.now ≤ length node.now },
    ghost wordable: { Wordable by } by { Wordable-prop by },
}

// How many words the term at the front of the words has.
fn size_of(words: &[u32]) -> usize
    ensures value { result ≡ size_of words.now }
    ensures few { result ≤ length words.now }
{
    end(words).unwrap_or(0)
}

// The words of child i of the form that the words begin with; none if it is not there.
fn child(node: &[u32], i: usize) -> &[u32]
    ensures value { result.now ≡ child_words node.now i }
    ensures few { length result.now ≤ length node.now }
{
    argument(node, i).unwrap_or_default()
}

// Appends one round of a repetition.
fn write_round(out: &mut Room, first: Word, again: Word, count: Word, body: &[u32])
    requires { length out.old + (3 + 2 * length body.now) ≤ 1024 }
    ensures { out.new ≡ out.old ++ (word first.label first.payload ∷ (body.now ++ (word again.label again.payload ∷ (word count.label count.payload ∷ body.now)))) }
{
    out.push(u32::from(first));
    out.append(body);
    out.push(u32::from(again));
    out.push(u32::from(count));
    out.append(body);
}

impl<'a> Replacement<'a> {
    ghost use Rattle.steppers.specs.Replaced.{words_after};

    // The replacement of the node at the spot.
    pub fn at(term: &'a [u32], spot: Spot, by: Made) -> Replacement<'a>
        requires few { length term.now ≤ 1024 }
        requires within { (spot.outer ≤ spot.node) × (spot.node ≤ length term.now) }
        requires wordable { Wordable by }
        ensures front { result.front.now ≡ take spot.outer term.now }
        ensures node { result.node.now ≡ drop spot.node term.now }
        ensures behind { result.behind.now ≡ drop (spot.node + size_of (drop spot.node term.now)) term.now }
        ensures by { result.by ≡ by }
    {
        let node = &term[spot.node..];
        Replacement {
            front: &term[..spot.outer],
            node,
            behind: &node[size_of(node)..],
            by,
        }
    }

    // How many words are made in the node's place.
    fn made_size(&self) -> usize
        ensures value { result ≡ length (made_words self.now.node.now self.now.by) }
        ensures few { result ≤ 3 + 2 * length self.now.node.now }
    {
        match self.by {
            Made::Number(_) | Made::Leaf(_) => 1,
            Made::Child(i) => child(self.node, i).len(),
            Made::Round { body, .. } => 3 + 2 * child(self.node, body).len(),
        }
    }

    // How many words the term has with the node replaced.
    pub fn size(&self) -> usize
        ensures { result ≡ length (words_after self.now) }
    {
        self.front.len() + self.made_size() + self.behind.len()
    }

    // Appends the words that are made in the node's place.
    fn write_made(&self, out: &mut Room)
        requires { length out.old + length (made_words self.now.node.now self.now.by) ≤ 1024 }
        ensures { out.new ≡ out.old ++ made_words self.now.node.now self.now.by }
    {
        match self.by {
            Made::Number(value) => out.push(u32::from(Word {
                label: ATOM,
                payload: value,
            })),
            Made::Leaf(label) => out.push(u32::from(Word { label, payload: 0 })),
            Made::Child(i) => out.append(child(self.node, i)),
            Made::Round {
                first,
                again,
                count,
                body,
            } => write_round(
                out,
                Word {
                    label: first,
                    payload: PAIR,
                },
                Word {
                    label: again,
                    payload: PAIR,
                },
                Word {
                    label: ATOM,
                    payload: count,
                },
                child(self.node, body),
            ),
        }
    }

    // Writes the term with the node replaced.
    pub fn write(&self, out: &mut Room)
        requires { length (words_after self.now) ≤ 1024 }
        ensures { out.new ≡ words_after self.now }
    {
        out.clear();
        out.append(self.front);
        self.write_made(out);
        out.append(self.behind);
    }
}
