// The logic language.
ghost use Rattle.std.specs.Prelude.{◌≡◌, ◌≤◌, refl};
ghost use Rattle.steppers.specs.Logic.{bit, gives, reads, negates, chooses, adds, logic_table};
ghost use Rattle.std.proofs.Common.{rules};

use crate::action::{Action, Made, Seen};
use crate::look::look_at_child;
use crate::stepper::Stepper;
use terms::word::LAST_PAYLOAD;

const IN: u32 = 16;

const NOT: u32 = 17;

const IF: u32 = 20;

const ADD: u32 = 21;
// Inputs are numbered 0 to LAST_INPUT, one for each bit of an image.
pub(crate) const LAST_INPUT: u32 = 31;
// Numbers are below this.
const NUMBERS: u64 = LAST_PAYLOAD as u64 + 1;

// The children of IF(a, b, c).
const WHEN_TRUE: usize = 1;

const WHEN_FALSE: usize = 2;

// Bit n of the inputs.
pub(crate) fn input(n: u32, inputs: u32) -> u32
    requires { n ≤ 31 }
    ensures { result ≡ bit n inputs }
{
    (inputs >> n) % 2
}

fn number(value: u32) -> Action
    ensures { result ≡ gives value }
{
    Action::Replace {
        effect: 0,
        by: Made::Number(value),
    }
}

fn read(n: u32, inputs: u32) -> Action
    ensures { result ≡ reads n inputs }
{
    if n <= LAST_INPUT {
        number(input(n, inputs))
    } else {
        Action::Stuck
    }
}

fn negate(a: u32) -> Action
    ensures { result ≡ negates a }
{
    if a == 0 { number(1) } else { number(0) }
}

fn choose(a: u32) -> Action
    ensures { result ≡ chooses a }
{
    let chosen = if a == 0 { WHEN_FALSE } else { WHEN_TRUE };
    Action::Replace {
        effect: 0,
        by: Made::Child(chosen),
    }
}

fn add(a: u32, second: Option<Seen>) -> Action
    ensures { result ≡ adds a second }
{
    match second {
        Some(Seen::Number(b)) => number(((u64::from(a) + u64::from(b)) % NUMBERS) as u32),
        Some(Seen::Form(_)) => Action::Child(1),
        None => Action::Stuck,
    }
}

// IN 16:1, NOT 17:1, IF 20:3, ADD 21:2.
#[derive(Clone, Copy)]
pub struct Logic;

impl Stepper for Logic {
    const CAPACITY: usize = 1024;

    ghost CAPACITY = { 1024 };

    ghost table = { logic_table };

    ghost same_capacity = { refl };

    ghost sound = { Prim.search rules };

    fn has_form(label: u32, count: u32) -> bool {
        matches!((label, count), (IN, 1) | (NOT, 1) | (IF, 3) | (ADD, 2))
    }

    fn has_ended(seen: Seen) -> bool {
        matches!(seen, Seen::Number(_))
    }

    fn act(label: u32, node: &[u32], inputs: u32) -> Action {
        let first = match look_at_child(node, 0) {
            Some(Seen::Number(value)) => value,
            Some(Seen::Form(_)) => return Action::Child(0),
            None => return Action::Stuck,
        };
        // a line for each row of the step table
        match label {
            IN => read(first, inputs),
            NOT => negate(first),
            IF => choose(first),
            ADD => add(first, look_at_child(node, 1)),
            _ => Action::Stuck,
        }
    }
}
