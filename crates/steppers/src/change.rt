// Replaces one of a term's nodes.
ghost use Rattle.std.specs.Prelude.{◌≡◌, ◌≤◌, length, if◌then◌else◌, nat_le};
ghost use Rattle.steppers.specs.Written.{Wordable, rewritten};

use crate::action::Made;
use crate::replacement::Replacement;
use crate::room::Room;
use crate::spot::Spot;
use std::mem::swap;

// Replaces the node of the term at the spot, if the term then has at most so many words, and answers whether it has.
// The new term is written into `next`, and the two change places. A term that would be too long is no error: the step is then full.
pub(crate) fn replace(term: &mut Room, next: &mut Room, spot: Spot, by: Made, most: usize) -> bool
    requires few { (length term.old ≤ 1024) × (most ≤ 1024) }
    requires within { (spot.outer ≤ spot.node) × (spot.node ≤ length term.old) }
    requires wordable { Wordable by }
    ensures fits { result ≡ nat_le (length (rewritten term.old spot.outer spot.node by)) most }
    ensures words { term.new ≡ (if result then rewritten term.old spot.outer spot.node by else term.old) }
{
    let replacement = Replacement::at(term.as_slice(), spot, by);
    if replacement.size() > most {
        return false;
    }
    replacement.write(next);
    swap(term, next);
    true
}
