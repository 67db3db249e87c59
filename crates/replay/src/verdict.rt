// What becomes of the two texts of a list.
ghost use Rattle.std.specs.Prelude.{◌≡◌, length};
ghost use Rattle.lists.specs.Held.{listed_in};
ghost use Rattle.replay.specs.Verdicts.{summary_of, Judged};

use lists::list::RuleList;
use lists::refusal::Refusal;
use std::alloc::Global;

// What a list has: its layer, and how many forms and rules.
#[derive(Clone, Copy)]
pub struct Summary {
    pub layer: u32,
    pub forms: usize,
    pub rules: usize,
}

fn rule_count(list: &RuleList) -> usize
    ensures { result ≡ length (listed_in list.now).rules }
{
    list.rules().len()
}

impl From<&RuleList> for Summary {
    ghost from_gives = { λ list summary. summary ≡ summary_of (listed_in list.now) };

    fn from(list: &RuleList) -> Summary {
        Summary {
            layer: list.layer(),
            forms: list.forms().len(),
            rules: rule_count(list),
        }
    }
}

// Accepts the list of two texts into the place, or refuses it and leaves the place as it was.
pub fn decide(
    place: &mut RuleList,
    heap: Global,
    header: &[u8],
    table: &[u8],
) -> Result<Summary, Refusal>
    ensures { Judged header.now table.now place.old place.new result }
{
    place.accept(heap, header, table)?;
    Ok(Summary::from(&*place))
}
