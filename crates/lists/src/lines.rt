// The lines behind a text's first: one for each form, or one for each rule.
ghost use Rattle.std.specs.Prelude.{◌≡◌, ℕ, ◌<◌, [], List, map, length, Option, IfOk, vec_items};
ghost use Rattle.std.specs.Option.{option_map};
ghost use Rattle.texts.specs.Texts.{Reading, readings};
ghost use Rattle.texts.specs.Pieces.{line_says};
ghost use Rattle.lists.specs.declared.refusal.Place.{Place};
ghost use Rattle.lists.specs.Lines.{Answers, judge_lines};

use crate::layer::Layer;
use crate::refusal::{Place, Refusal};
use std::alloc::{AllocError, Global};
use texts::text::{Piece, next_line};

// What one line declares, in a list of a layer and behind the lines before it.
pub(crate) trait Entry: Sized + Drop {
    // What a value stands for in the definitions.
    ghost Meant: { Type 0 };

    ghost meant: { Self → Meant };

    ghost line_at: { ℕ → Place };

    ghost reads: { ℕ → List Meant → Reading → Option Meant };

    // The place of line i.
    fn line_at(i: u32) -> Place
        ensures { result ≡ line_at i };

    fn read(
        heap: Global,
        layer: Layer,
        earlier: &[Self],
        line: Piece<'_>,
    ) -> Result<Option<Self>, AllocError>
        requires { length earlier.now < 4294967296 }
        ensures { IfOk result (λ x. option_map meant x ≡ reads layer (map meant earlier.now) (line_says line.entry)) };
}

// Reads a line for each of `count` values, and no more.
pub(crate) fn read_lines<T: Entry>(
    heap: Global,
    layer: Layer,
    count: u32,
    text: &[u8],
) -> Result<Vec<T>, Refusal>
    ensures { Answers (λ v. map T.meant (vec_items v)) (judge_lines T.line_at (T.reads layer) [] count (readings text.now)) result }
{
    let mut entries = Vec::new(heap);
    let mut rest = text;
    for i in 0..count {
        let Some(line) = next_line(rest) else {
            return Err(Refusal::LineMissing(T::line_at(i)));
        };
        let Some(entry) = T::read(heap, layer, &entries, line)? else {
            return Err(Refusal::LineBroken(T::line_at(i)));
        };
        entries.push(entry)?;
        rest = line.rest();
    }
    match next_line(rest) {
        Some(_) => Err(Refusal::LineExtra(T::line_at(count))),
        None => Ok(entries),
    }
}
