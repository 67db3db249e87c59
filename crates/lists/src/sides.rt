// The two sides of a rule: their shape, their variables, and where two left sides overlap.
ghost use Rattle.std.specs.Prelude.{◌≡◌, ◌&&◌, ◌==◌};
ghost use Rattle.terms.specs.Words.{node_of};
ghost use Rattle.lists.specs.Lines.{sides_of};
ghost use Rattle.std.specs.List.{list_all, list_any};
ghost use Rattle.lists.specs.Sides.{is_atom, is_variable, is_lower_form, is_argument, on_right, form_word, left_shaped, right_shaped, shaped, holds, repeated, once_each, bound, linear, clash, agree, overlapping, is_for};

use crate::layer::Layer;
use crate::parts::{Form, Rule};
use terms::front::is_tree;
use terms::words::{LABEL_UNIT, Node, decode};

// A number. This test and the next are one pattern each.
fn is_atom(word: u32) -> bool
    ensures { result ≡ is_atom (node_of word) }
{
    matches!(decode(word), Some(Node::Atom { .. }))
}

fn is_variable(word: u32) -> bool
    ensures { result ≡ is_variable (node_of word) }
{
    matches!(decode(word), Some(Node::Variable { .. }))
}

// A form whose label is below those of layer k.
fn is_lower_form(k: Layer, word: u32) -> bool
    ensures { result ≡ is_lower_form k (node_of word) }
{
    matches!(decode(word), Some(Node::Form { label, .. }) if label < k.first_label())
}

fn is_argument(word: u32) -> bool
    ensures { result ≡ is_argument word }
{
    is_variable(word) || is_atom(word)
}

// A word that may stand on a right side.
fn stands_right(k: Layer, word: u32) -> bool
    ensures { result ≡ on_right k word }
{
    is_argument(word) || is_lower_form(k, word)
}

fn all_arguments(words: &[u32]) -> bool
    ensures { result ≡ list_all is_argument words.now }
{
    words.iter().all(|word| is_argument(*word))
}

fn all_stand_right(k: Layer, words: &[u32]) -> bool
    ensures { result ≡ list_all (on_right k) words.now }
{
    words.iter().all(|word| stands_right(k, *word))
}

// Whether the word is the form's: its label, and its count of children.
fn is_word_of(form: Form, word: u32) -> bool
    ensures { result ≡ (form_word form == word) }
{
    u64::from(form.label) * u64::from(LABEL_UNIT) + u64::from(form.count) == u64::from(word)
}

// Whether a left side may begin with the word, as the form's, with so many arguments behind it.
fn begins(form: Form, word: u32, arguments: usize) -> bool
    ensures { result ≡ (form_word form == word && arguments == form.count) }
{
    is_word_of(form, word) && arguments as u64 == u64::from(form.count)
}

// Whether a form is declared that a left side may begin with so. The forms, at most 32, are looked through from the first.
fn is_declared(forms: &[Form], word: u32, arguments: usize) -> bool
    ensures { result ≡ list_any (λ f. (form_word f == word) && arguments == f.count) forms.now }
{
    forms.iter().any(|form| begins(*form, word, arguments))
}

fn is_left_shaped(forms: &[Form], left: &[u32]) -> bool
    ensures { result ≡ left_shaped forms.now left.now }
{
    match left.split_first() {
        Some((word, arguments)) => is_declared(forms, *word, arguments.len())
            && all_arguments(arguments),
        None => false,
    }
}

fn is_right_shaped(k: Layer, right: &[u32]) -> bool
    ensures { result ≡ right_shaped k right.now }
{
    match right.split_first() {
        Some((word, words)) => is_lower_form(k, *word)
            && all_stand_right(k, words)
            && is_tree(right),
        None => false,
    }
}

fn is_held(words: &[u32], word: u32) -> bool
    ensures { result ≡ holds words.now word }
{
    words.contains(&word)
}

// Whether the word is a variable that stands again behind it.
fn is_repeated(behind: &[u32], word: u32) -> bool
    ensures { result ≡ repeated behind.now word }
{
    is_variable(word) && is_held(behind, word)
}

// No variable stands twice: none of the words stands again among those behind it.
fn once_each(words: &[u32]) -> bool
    ensures { result ≡ once_each words.now }
{
    for (i, word) in words.iter().enumerate() {
        if is_repeated(&words[i + 1..], *word) {
            return false;
        }
    }
    true
}

// Whether the word, if it is a variable, stands on the left.
fn is_bound(left: &[u32], word: u32) -> bool
    ensures { result ≡ bound left.now word }
{
    !is_variable(word) || is_held(left, word)
}

// Every variable of the right side stands on the left.
fn all_bound(left: &[u32], right: &[u32]) -> bool
    ensures { result ≡ list_all (bound left.now) right.now }
{
    right.iter().all(|word| is_bound(left, *word))
}

fn is_clash(v: u32, w: u32) -> bool
    ensures { result ≡ clash v w }
{
    is_atom(v) && is_atom(w) && v != w
}

// No argument place holds two different atoms.
fn all_agree(these: &[u32], those: &[u32]) -> bool
    ensures { result ≡ agree these.now those.now }
{
    these.iter().zip(those).all(|(v, w)| !is_clash(*v, *w))
}

fn is_overlap(these: &[u32], those: &[u32]) -> bool
    ensures { result ≡ overlapping these.now those.now }
{
    match (these.split_first(), those.split_first()) {
        (Some((v, vs)), Some((w, ws))) => *v == *w && all_agree(vs, ws),
        _ => false,
    }
}

// Whether the left sides of two rules overlap.
pub(crate) fn overlap(this: &Rule, that: &Rule) -> bool
    ensures { result ≡ overlapping (sides_of this.now).left (sides_of that.now).left }
{
    is_overlap(&this.left, &that.left)
}

// Whether both sides of a rule have their shape.
pub(crate) fn is_shaped(k: Layer, forms: &[Form], rule: &Rule) -> bool
    ensures { result ≡ shaped k forms.now (sides_of rule.now) }
{
    is_left_shaped(forms, &rule.left) && is_right_shaped(k, &rule.right)
}

// Whether a rule keeps to its variables: each stands once on a side, and on the right only if on the left.
pub(crate) fn is_linear(rule: &Rule) -> bool
    ensures { result ≡ linear (sides_of rule.now) }
{
    once_each(&rule.left) && once_each(&rule.right) && all_bound(&rule.left, &rule.right)
}

// Whether the rule is for the form.
pub(crate) fn is_for(form: Form, rule: &Rule) -> bool
    ensures { result ≡ is_for form (sides_of rule.now) }
{
    rule.left
        .first()
        .is_some_and(|word| is_word_of(form, *word))
}
