// A pair of texts with the answer that the rules give, and the list that most pairs vary.
use std::fmt;

// The layer, how many forms, how many rules.
#[derive(Clone, Copy, PartialEq, Eq)]
pub struct Accepted(pub u32, pub usize, pub usize);

// The cause and the place, as the rules number them.
#[derive(Clone, Copy, PartialEq, Eq)]
pub struct Refused(pub u32, pub u64);

// What acceptance answers.
pub type Answer = Result<Accepted, Refused>;

// An answer as it is printed.
#[derive(Clone, Copy)]
pub struct Told(pub Answer);

impl fmt::Display for Told {
    fn fmt<W: fmt::Write>(&self, f: &mut fmt::Formatter<W>) -> fmt::Result {
        match self.0 {
            Ok(Accepted(layer, forms, rules)) => write!(
                f,
                "accepted, layer {layer}, forms {forms}, rules {rules}"
            ),
            Err(Refused(cause, place)) => write!(f, "refused, cause {cause}, place {place}"),
        }
    }
}

#[derive(Clone, Copy)]
pub struct Case<'a> {
    pub name: &'a str,
    pub header: &'a [u8],
    pub table: &'a [u8],
    pub answer: Answer,
}

// One form P, 64 with 2 children, and one rule: P(a, b) to NOP.
pub const HEADER: &[u8] = b"head,1,1,1\nform,64,2\n";

pub const TABLE: &[u8] = b"table,1,1\nrule,0,3,1,64,2,2,0,2,1,38,0\n";
// The same form, and two rules to come.
pub const TWO_RULES: &[u8] = b"head,1,1,2\nform,64,2\n";
