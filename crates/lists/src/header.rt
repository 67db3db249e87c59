// Reads a header.
ghost use Rattle.std.specs.Prelude.{◌≡◌, IfOk, vec_items};
ghost use Rattle.std.specs.Option.{option_map};
ghost use Rattle.texts.specs.Texts.{readings};
ghost use Rattle.texts.specs.Pieces.{fields_of, line_says};
ghost use Rattle.lists.specs.declared.parts.Form.{Form};
ghost use Rattle.lists.specs.declared.refusal.Place.TheVariants as place;
ghost use Rattle.lists.specs.Lines.{Answers, numbers_of, head_of, head_of_line, form_of, form_of_line, last_label, judge_header, declared_by};

use crate::layer::Layer;
use crate::lines::{Entry, read_lines};
use crate::parts::{Form, Head, Header, MOST_RULES};
use crate::refusal::{Place, Refusal};
use std::alloc::{AllocError, Global};
use terms::words::MOST_CHILDREN;
use texts::number::read_numbers;
use texts::text::{Line, Piece, Word, first_field, next_line};

// The fields of a line that begins with the word.
fn fields_of(line: Option<Line<'_>>, word: Word) -> Option<&[u8]>
    ensures { option_map (λ x. x.now) result ≡ fields_of word line.entry }
{
    match (word, line) {
        (Word::Head, Some(Line::Head(fields))) => Some(fields),
        (Word::Form, Some(Line::Form(fields))) => Some(fields),
        (Word::Table, Some(Line::Table(fields))) => Some(fields),
        (Word::Rule, Some(Line::Rule(fields))) => Some(fields),
        _ => None,
    }
}

// The numbers of a line that begins with the word; none if it doesn't, or is broken.
pub(crate) fn line_numbers(
    heap: Global,
    line: Piece<'_>,
    word: Word,
) -> Result<Option<Vec<u32>>, AllocError>
    ensures { IfOk result (λ v. option_map vec_items v ≡ numbers_of word (line_says line.entry)) }
{
    match fields_of(first_field(line), word) {
        Some(fields) => read_numbers(heap, fields),
        None => Ok(None),
    }
}

const MOST_FORMS: u32 = 32;

// What the numbers of a header's first line declare.
fn head_from(numbers: &[u32]) -> Option<Head>
    ensures { result ≡ head_of numbers.now }
{
    let [layer, forms, rules] = *numbers else {
        return None;
    };
    let layer = Layer::try_from(layer).ok()?;
    if forms < 1 || forms > MOST_FORMS || rules < 1 || rules > MOST_RULES {
        return None;
    }
    Some(Head {
        layer,
        forms,
        rules,
    })
}

// What the numbers of a form's line declare, behind a form of the label `before`.
fn form_from(k: Layer, before: u32, numbers: &[u32]) -> Option<Form>
    ensures { result ≡ form_of k before numbers.now }
{
    let [label, count] = *numbers else {
        return None;
    };
    if !k.owns(label) || label <= before || count > MOST_CHILDREN {
        return None;
    }
    Some(Form { label, count })
}

// The header's first line.
fn read_head(heap: Global, line: Piece<'_>) -> Result<Option<Head>, AllocError>
    ensures { IfOk result (λ h. h ≡ head_of_line (line_says line.entry)) }
{
    Ok(line_numbers(heap, line, Word::Head)?.and_then(|numbers| head_from(&numbers)))
}

// The label of the last form; 0 if there is none.
fn last_label(forms: &[Form]) -> u32
    ensures { result ≡ last_label forms.now }
{
    match forms.last() {
        Some(form) => form.label,
        None => 0,
    }
}

impl Entry for Form {
    ghost Meant = { Form };

    ghost meant = { λ f. f };

    ghost line_at = { λ i. place.Form i };

    ghost reads = { λ k read r. form_of_line k (last_label read) r };

    fn line_at(i: u32) -> Place {
        Place::Form(i)
    }

    fn read(
        heap: Global,
        layer: Layer,
        earlier: &[Form],
        line: Piece<'_>,
    ) -> Result<Option<Form>, AllocError> {
        let before = last_label(earlier);
        Ok(line_numbers(heap, line, Word::Form)?.and_then(|numbers| form_from(
            layer, before, &numbers,
        )))
    }
}

// Reads a whole header.
pub(crate) fn read_header(heap: Global, text: &[u8]) -> Result<Header, Refusal>
    ensures { Answers declared_by (judge_header (readings text.now)) result }
{
    let Some(line) = next_line(text) else {
        return Err(Refusal::LineMissing(Place::Head));
    };
    let Some(head) = read_head(heap, line)? else {
        return Err(Refusal::LineBroken(Place::Head));
    };
    let forms = read_lines(heap, head.layer, head.forms, line.rest())?;
    Ok(Header { head, forms })
}
