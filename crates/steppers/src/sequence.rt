// The sequence language.
ghost use Rattle.std.specs.Prelude.{◌≡◌, ◌≤◌, IfSome, refl};
ghost use Rattle.steppers.specs.Sequence.{is_nop, nop_with, channel_of, goes_on, switches, awaits, repeats, sequence_table};
ghost use Rattle.steppers.specs.SequenceLaws.{sequence_sound};

use crate::action::{Action, Made, Seen};
use crate::logic::{LAST_INPUT, input};
use crate::look::look_at_child;
use crate::stepper::Stepper;

const SEQ: u32 = 32;

const SET: u32 = 33;

const CLEAR: u32 = 34;

const AWAIT: u32 = 35;

const REPEAT: u32 = 36;

const NOP: u32 = 38;
// The effect of SET(n) is SETS + n, of CLEAR(n) CLEARS + n.
const SETS: u32 = 100;

const CLEARS: u32 = 200;

// The child of SEQ that comes behind the first, and the body of REPEAT.
const SECOND: usize = 1;

// The node gives NOP, with this effect.
fn done(effect: u32) -> Action
    ensures { result ≡ nop_with effect }
{
    Action::Replace {
        effect,
        by: Made::Leaf(NOP),
    }
}

fn is_nop(seen: Seen) -> bool
    ensures { result ≡ is_nop seen }
{
    matches!(seen, Seen::Form(NOP))
}

// A number that names an input or an output.
fn channel(seen: Seen) -> Option<u32>
    ensures value { result ≡ channel_of seen }
    ensures small { IfSome result (λ n. n ≤ 31) }
{
    match seen {
        Seen::Number(n) if n <= LAST_INPUT => Some(n),
        _ => None,
    }
}

fn switch(first: u32, seen: Seen) -> Action
    requires { first ≤ 200 }
    ensures { result ≡ switches first seen }
{
    match channel(seen) {
        Some(n) => done(first + n),
        None => Action::Stuck,
    }
}

fn wait(seen: Seen, inputs: u32) -> Action
    ensures { result ≡ awaits seen inputs }
{
    match channel(seen) {
        Some(n) if input(n, inputs) == 1 => done(0),
        Some(_) => Action::Wait,
        None => Action::Stuck,
    }
}

fn repeat(seen: Seen) -> Action
    ensures { result ≡ repeats seen }
{
    match seen {
        Seen::Number(0) => done(0),
        Seen::Number(count) => Action::Replace {
            effect: 0,
            by: Made::Round {
                first: SEQ,
                again: REPEAT,
                count: count - 1,
                body: SECOND,
            },
        },
        Seen::Form(_) => Action::Stuck,
    }
}

fn go_on(seen: Seen) -> Action
    ensures { result ≡ goes_on seen }
{
    if is_nop(seen) {
        return Action::Replace {
            effect: 0,
            by: Made::Child(SECOND),
        };
    }
    Action::Child(0)
}

// SEQ 32:2, SET 33:1, CLEAR 34:1, AWAIT 35:1, REPEAT 36:2, NOP 38:0.
#[derive(Clone, Copy)]
pub struct Sequence;

impl Stepper for Sequence {
    const CAPACITY: usize = 1024;

    ghost CAPACITY = { 1024 };

    ghost table = { sequence_table };

    ghost same_capacity = { refl };

    ghost sound = { sequence_sound };

    fn has_form(label: u32, count: u32) -> bool {
        matches!(
            (label, count),
            (SEQ, 2) | (SET, 1) | (CLEAR, 1) | (AWAIT, 1) | (REPEAT, 2) | (NOP, 0)
        )
    }

    fn has_ended(seen: Seen) -> bool {
        is_nop(seen)
    }

    fn act(label: u32, node: &[u32], inputs: u32) -> Action {
        let Some(first) = look_at_child(node, 0) else {
            return Action::Stuck;
        };
        // a line for each row of the step table
        match label {
            SEQ => go_on(first),
            SET => switch(SETS, first),
            CLEAR => switch(CLEARS, first),
            AWAIT => wait(first, inputs),
            REPEAT => repeat(first),
            _ => Action::Stuck,
        }
    }
}
