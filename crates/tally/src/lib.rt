// A count of worked cases, for the programs that run tables of them.

#![tactic(auto)]

ghost use Rattle.std.specs.Prelude.{Some};
ghost use Rattle.tally.specs.Counts.{Counted, tally_text};

use std::fmt;

// How many cases were run, and how many of them came out otherwise than worked out.
#[derive(Clone, Copy, Debug, Default, PartialEq, Eq)]
pub struct Tally {
    pub cases: u32,
    pub differ: u32,
}

impl Tally {
    // Counts one more case.
    pub fn count(&mut self, same: bool)
        ensures { Counted same self.old self.new }
    {
        self.cases = self.cases.saturating_add(1);
        if !same {
            self.differ = self.differ.saturating_add(1);
        }
    }
}

impl fmt::Display for Tally {
    ghost output = { λ t. Some (tally_text t) };

    fn fmt<W: fmt::Write>(&self, f: &mut fmt::Formatter<W>) -> fmt::Result {
        let Tally { cases, differ } = *self;
        write!(f, "{cases} cases, {differ} differ")
    }
}
