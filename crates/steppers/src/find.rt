// Finds where in a term its step acts.
ghost use Rattle.std.specs.Prelude.{◌≡◌};
ghost use Rattle.terms.specs.Words.{node_of};
ghost use Rattle.steppers.specs.Placed.{own_label, ActionOf, FoundIn};

use crate::action::Action;
use crate::look::{child_start, inside};
use crate::spot::Spot;
use crate::stepper::Stepper;
use terms::words::{Node, decode};

// The label of a form that the stepper has.
fn own_label<S: Stepper>(word: u32) -> Option<u32>
    ensures { result ≡ own_label S.Stepper.table.has (node_of word) }
{
    match decode(word)? {
        Node::Form { label, count } if S::has_form(label, count) => Some(label),
        _ => None,
    }
}

// What the stepper does at the node that the words begin with: nothing at a number or a form that it lacks.
fn act_at<S: Stepper>(node: &[u32], inputs: u32) -> Action
    ensures { ActionOf S.Stepper.table node.now inputs result }
{
    let Some(word) = node.first() else {
        return Action::Stuck;
    };
    let Some(label) = own_label::<S>(*word) else {
        return Action::Stuck;
    };
    S::act(label, node, inputs)
}

// The spot at which a step of the term acts.
pub(crate) fn find<S: Stepper>(words: &[u32], inputs: u32) -> Spot
    ensures { FoundIn S.Stepper.table words.now inputs result }
{
    let mut outer = 0;
    loop {
        let node = outer + inside(&words[outer..]);
        let action = act_at::<S>(&words[node..], inputs);
        let Action::Child(i) = action else {
            return Spot {
                outer,
                node,
                action,
            };
        };
        let Some(start) = child_start(&words[node..], i) else {
            return Spot {
                outer,
                node,
                action: Action::Stuck,
            };
        };
        outer = node + start;
    }
}
