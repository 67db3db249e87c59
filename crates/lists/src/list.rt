// A place for an accepted list.
ghost use Rattle.std.specs.Prelude.{◌≡◌, true};
ghost use Rattle.terms.specs.Words.{is_layer};
ghost use Rattle.lists.specs.Lines.{all_sides};
ghost use Rattle.lists.specs.Sound.{rising, all_shaped, all_linear, none_overlap, all_ruled};

use crate::layer::Layer;
use crate::parts::{Form, Rule};

// An accepted list: its layer, its forms with their counts, and its rules. What the rules ask of a list holds of every value.
#[derive(Drop, PartialEq, Eq)]
pub struct RuleList {
    pub(crate) layer: Layer,
    pub(crate) forms: Vec<Form>,
    pub(crate) rules: Vec<Rule>,
    ghost layered: { is_layer layer ≡ true },
    ghost rising: { rising layer forms.items ≡ true },
    ghost shaped: { all_shaped layer forms.items (all_sides rules) ≡ true },
    ghost linear: { all_linear (all_sides rules) ≡ true },
    ghost apart: { none_overlap (all_sides rules) ≡ true },
    ghost ruled: { all_ruled forms.items (all_sides rules) ≡ true },
}
