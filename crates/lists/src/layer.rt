// The layers that a list may have, 1 to 6, and the labels that each owns.
ghost use Rattle.std.specs.Prelude.{◌≡◌, ℕ, ◌+◌, ◌*◌, true, false, MatchResult};
ghost use Rattle.terms.specs.Words.{is_layer};
ghost use Rattle.lists.specs.Layers.{owned};

use std::marker::Model;
use terms::words::{FIRST_LAYER, is_layer};

// Layer k owns LABELS labels, from LABELS + LABELS × k on.
pub const LABELS: u32 = 32;

// A layer, by its number.
#[derive(Clone, Copy, PartialEq, Eq)]
pub(crate) struct Layer {
    number: u32,
}

impl Model for Layer {
    ghost Value = { ℕ };

    ghost view = { λ k. k.number };

    ghost invariant = { λ k. is_layer k.number ≡ true };

    ghost inverse = { λ n. record { number = n } };
}

// No layer has the number.
#[derive(Clone, Copy)]
pub(crate) struct NoLayer;

impl TryFrom<u32> for Layer {
    type Error = NoLayer;

    ghost try_from_gives = { λ n r. MatchResult r (λ k. (k ≡ n) × (is_layer n ≡ true)) (λ _. is_layer n ≡ false) };

    fn try_from(number: u32) -> Result<Layer, NoLayer> {
        if is_layer(number) {
            Ok(Layer { number })
        } else {
            Err(NoLayer)
        }
    }
}

impl Layer {
    // The layer of a new list.
    pub(crate) fn first() -> Layer
        ensures { result ≡ 1 }
    {
        Layer {
            number: FIRST_LAYER,
        }
    }

    pub(crate) fn number(self) -> u32
        ensures number { result ≡ self }
        ensures layer { is_layer self ≡ true }
    {
        self.number
    }

    // The lowest label that the layer owns.
    pub(crate) fn first_label(self) -> u32
        ensures { result ≡ 32 + 32 * self }
    {
        LABELS + LABELS * self.number
    }

    // Whether the layer owns the label.
    pub(crate) fn owns(self, label: u32) -> bool
        ensures { result ≡ owned self label }
    {
        let first = self.first_label();
        (first..first + LABELS).contains(&label)
    }
}
