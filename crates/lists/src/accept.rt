// Accepts or refuses the two texts of a list.
ghost use Rattle.std.specs.Prelude.{◌≡◌};
ghost use Rattle.std.specs.Result.{result_map_both};
ghost use Rattle.lists.specs.Lines.{Answers};
ghost use Rattle.lists.specs.Acceptance.{blank, accepted};
ghost use Rattle.lists.specs.Held.{listed_in, Decided};
ghost use Rattle.lists.specs.Laws.{Means};

use crate::faults::Draft;
use crate::header::read_header;
use crate::layer::Layer;
use crate::list::RuleList;
use crate::parts::{Form, Header, Rule};
use crate::refusal::Refusal;
use crate::table::read_table;
use std::alloc::Global;

const MOST_BYTES: usize = 16_384;

// The list that two texts spell, or their refusal.
fn read_list(heap: Global, header: &[u8], table: &[u8]) -> Result<RuleList, Refusal>
    ensures { Answers listed_in (accepted header.now table.now) result }
{
    if header.len() > MOST_BYTES || table.len() > MOST_BYTES {
        return Err(Refusal::TextTooLong);
    }
    let Header { head, forms } = read_header(heap, header)?;
    let rules = read_table(heap, &head, table)?;
    let draft = Draft {
        layer: head.layer,
        forms: &forms,
        rules: &rules,
    };
    match draft.fault() {
        Some(refusal) => Err(refusal),
        None => Ok(RuleList {
            layer: head.layer,
            forms,
            rules,
        }),
    }
}

// The same list or refusal, with what it means that the texts get it.
fn list_meant(heap: Global, header: &[u8], table: &[u8]) -> Result<RuleList, Refusal>
    ensures answer { Answers listed_in (accepted header.now table.now) result }
    ensures law { Means header.now table.now (result_map_both listed_in (λ e. e) result) }
{
    read_list(heap, header, table)
}

impl RuleList {
    // A new place: layer 1, no form, no rule.
    pub fn new(heap: Global) -> RuleList
        ensures { listed_in result ≡ blank }
    {
        RuleList {
            layer: Layer::first(),
            forms: Vec::new(heap),
            rules: Vec::new(heap),
        }
    }

    // Accepts the two texts of a list into this place, or refuses them and leaves the place as it was.
    pub fn accept(&mut self, heap: Global, header: &[u8], table: &[u8]) -> Result<(), Refusal>
        ensures answer { Decided header.now table.now self.old self.new result }
        ensures law { Means header.now table.now (result_map_both (λ _. listed_in self.new) (λ e. e) result) }
    {
        *self = list_meant(heap, header, table)?;
        Ok(())
    }

    pub fn layer(&self) -> u32
        ensures { result ≡ (listed_in self.now).layer }
    {
        self.layer.number()
    }

    // The forms that the list declares, in the order of their labels.
    pub fn forms(&self) -> &[Form]
        ensures { result.now ≡ (listed_in self.now).forms }
    {
        &self.forms
    }

    // The rules, in the order of the table.
    pub fn rules(&self) -> &[Rule]
        ensures { result.now ≡ self.now.rules.items }
    {
        &self.rules
    }
}
