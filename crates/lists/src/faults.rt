// What is wrong with a list whose lines are all in order.
ghost use Rattle.std.specs.Prelude.{◌≡◌, ◌≤◌, [], map, length};
ghost use Rattle.std.specs.List.{list_any};
ghost use Rattle.lists.specs.Lines.{sides_of};
ghost use Rattle.lists.specs.Sides.{is_for};
ghost use Rattle.lists.specs.Acceptance.{side_fault, overlap_fault, form_fault, fault_in};
ghost use Rattle.lists.specs.Sound.{overlaps_some};

use crate::layer::Layer;
use crate::parts::{Form, Rule};
use crate::refusal::Refusal;
use crate::sides::{is_for, is_linear, is_shaped, overlap};

// A list as its lines declare it, before its rules are looked at.
#[derive(Drop)]
pub(crate) struct Draft<'a> {
    pub(crate) layer: Layer,
    pub(crate) forms: &'a [Form],
    pub(crate) rules: &'a [Rule],
    ghost few_forms: { length forms.now ≤ 32 },
    ghost few_rules: { length rules.now ≤ 32 },
}

// Whether the rule overlaps one of the others.
fn overlaps_some(others: &[Rule], rule: &Rule) -> bool
    ensures { result ≡ overlaps_some (map sides_of others.now) (sides_of rule.now) }
{
    others.iter().any(|other| overlap(other, rule))
}

// Whether some rule is for the form.
fn has_rule(rules: &[Rule], form: Form) -> bool
    ensures { result ≡ list_any (is_for form) (map sides_of rules.now) }
{
    rules.iter().any(|rule| is_for(form, rule))
}

impl<'a> Draft<'a> {
    // The first rule with a side out of shape or with a variable that stands wrongly.
    fn side_fault(&self) -> Option<Refusal>
        ensures { result ≡ side_fault self.now.layer self.now.forms.now 0 (map sides_of self.now.rules.now) }
    {
        for (i, rule) in self.rules.iter().enumerate() {
            if !is_shaped(self.layer, self.forms, rule) {
                return Some(Refusal::WrongShape(i as u32));
            }
            if !is_linear(rule) {
                return Some(Refusal::WrongVariables(i as u32));
            }
        }
        None
    }

    // The first rule that overlaps an earlier one.
    fn overlap_fault(&self) -> Option<Refusal>
        ensures { result ≡ overlap_fault [] (map sides_of self.now.rules.now) }
    {
        for (i, rule) in self.rules.iter().enumerate() {
            if overlaps_some(&self.rules[..i], rule) {
                return Some(Refusal::Overlap(i as u32));
            }
        }
        None
    }

    // The first form without a rule.
    fn form_fault(&self) -> Option<Refusal>
        ensures { result ≡ form_fault (map sides_of self.now.rules.now) 0 self.now.forms.now }
    {
        let i = self
            .forms
            .iter()
            .position(|form| !has_rule(self.rules, *form))?;
        Some(Refusal::NoRule(i as u32))
    }

    // The first fault: of a rule's sides, of two rules that overlap, of a form without a rule.
    pub(crate) fn fault(&self) -> Option<Refusal>
        ensures { result ≡ fault_in (record { layer = self.now.layer; forms = self.now.forms.now; rules = map sides_of self.now.rules.now }) }
    {
        self.side_fault()
            .or(self.overlap_fault())
            .or(self.form_fault())
    }
}
