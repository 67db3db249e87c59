// Reads a table.
ghost use Rattle.std.specs.Prelude.{◌≡◌, length, IfOk, vec_items};
ghost use Rattle.std.specs.Option.{option_map};
ghost use Rattle.texts.specs.Texts.{readings};
ghost use Rattle.texts.specs.Pieces.{line_says};
ghost use Rattle.lists.specs.declared.refusal.Place.TheVariants as place;
ghost use Rattle.lists.specs.Lines.{Sides, Answers, table_of, table_of_line, word_at, words_of, FieldsOf, rule_of, rule_of_line, sides_of, all_sides, judge_table};

use crate::header::line_numbers;
use crate::layer::Layer;
use crate::lines::{Entry, read_lines};
use crate::parts::{Head, MOST_RULES, Rule};
use crate::refusal::{Place, Refusal};
use std::alloc::{AllocError, Global};
use terms::word::Word;
use texts::text::{Piece, Word as LineWord, next_line};

const MOST_LEFT: u32 = 9;

const MOST_RIGHT: u32 = 64;

// The layer and the number of rules that the table's first line declares.
fn table_from(numbers: &[u32]) -> Option<(Layer, u32)>
    ensures { result ≡ table_of numbers.now }
{
    let [layer, rules] = *numbers else {
        return None;
    };
    let layer = Layer::try_from(layer).ok()?;
    if rules < 1 || rules > MOST_RULES {
        return None;
    }
    Some((layer, rules))
}

// The table's first line.
fn read_table_line(heap: Global, line: Piece<'_>) -> Result<Option<(Layer, u32)>, AllocError>
    ensures { IfOk result (λ t. t ≡ table_of_line (line_says line.entry)) }
{
    Ok(line_numbers(heap, line, LineWord::Table)?.and_then(|numbers| table_from(&numbers)))
}

fn word_from(label: u32, payload: u32) -> Option<u32>
    ensures { result ≡ word_at label payload }
{
    Word::new(label, payload).map(u32::from)
}

// The words of fields in pairs, a label and a payload each; none if one is out of range or a field is left over.
fn words_from(heap: Global, fields: &[u32]) -> Result<Option<Vec<u32>>, AllocError>
    ensures { IfOk result (λ v. option_map vec_items v ≡ words_of fields.now) }
{
    let mut words = Vec::new(heap);
    let mut rest = fields;
    while let [label, payload, behind @ ..] = rest {
        let Some(word) = word_from(*label, *payload) else {
            return Ok(None);
        };
        words.push(word)?;
        rest = behind;
    }
    if rest.is_empty() {
        Ok(Some(words))
    } else {
        Ok(None)
    }
}

// The fields of the left and of the right side of rule k, if the numbers of its line are in their ranges.
fn side_fields(k: u32, numbers: &[u32]) -> Option<(&[u32], &[u32])>
    ensures { FieldsOf k numbers.now result }
{
    let [number, lefts, rights, fields @ ..] = numbers else {
        return None;
    };
    if *number != k || *lefts < 1 || *lefts > MOST_LEFT || *rights < 1 || *rights > MOST_RIGHT {
        return None;
    }
    let size = 2 * *lefts as usize;
    if fields.len() != size + 2 * *rights as usize {
        return None;
    }
    Some(fields.split_at(size))
}

// What the numbers of a rule's line declare, for rule k.
fn rule_from(heap: Global, k: u32, numbers: &[u32]) -> Result<Option<Rule>, AllocError>
    ensures { IfOk result (λ s. option_map sides_of s ≡ rule_of k numbers.now) }
{
    let Some((lefts, rights)) = side_fields(k, numbers) else {
        return Ok(None);
    };
    let Some(left) = words_from(heap, lefts)? else {
        return Ok(None);
    };
    let Some(right) = words_from(heap, rights)? else {
        return Ok(None);
    };
    Ok(Some(Rule { left, right }))
}

// The line of rule k. Its sides are read into memory of their own, which may run out.
fn read_rule(heap: Global, k: u32, line: Piece<'_>) -> Result<Option<Rule>, AllocError>
    ensures { IfOk result (λ s. option_map sides_of s ≡ rule_of_line k (line_says line.entry)) }
{
    match line_numbers(heap, line, LineWord::Rule)? {
        Some(numbers) => rule_from(heap, k, &numbers),
        None => Ok(None),
    }
}

impl Entry for Rule {
    ghost Meant = { Sides };

    ghost meant = { λ s. sides_of s };

    ghost line_at = { λ i. place.Rule i };

    ghost reads = { λ _ read r. rule_of_line (length read) r };

    fn line_at(i: u32) -> Place {
        Place::Rule(i)
    }

    fn read(
        heap: Global,
        _layer: Layer,
        earlier: &[Rule],
        line: Piece<'_>,
    ) -> Result<Option<Rule>, AllocError> {
        read_rule(heap, earlier.len() as u32, line)
    }
}

// Reads a whole table, behind a header with this first line.
pub(crate) fn read_table(heap: Global, head: &Head, text: &[u8]) -> Result<Vec<Rule>, Refusal>
    ensures { Answers all_sides (judge_table head.now (readings text.now)) result }
{
    let Some(line) = next_line(text) else {
        return Err(Refusal::LineMissing(Place::Table));
    };
    let Some(declared) = read_table_line(heap, line)? else {
        return Err(Refusal::LineBroken(Place::Table));
    };
    let (layer, rules) = declared;
    if layer != head.layer || rules != head.rules {
        return Err(Refusal::TableDiffers);
    }
    read_lines(heap, head.layer, head.rules, line.rest())
}
