// Times steps of terms of 1,024 words.
use crate::rounds::time_rounds;
use crate::runs::push_many;
use languages::language::Language;
use std::alloc::{AllocError, Global};
use std::io;
use std::rt::Clock;
use steppers::machine::Machine;
use steppers::sequence::Sequence;
use terms::word::Word;

const STEPS: u32 = 20_000;

const SEQ: Word = Word {
    label: 32,
    payload: 2,
};

const AWAIT: Word = Word {
    label: 35,
    payload: 1,
};

const NOP: Word = Word {
    label: 38,
    payload: 0,
};

// The input that is waited for.
const INPUT: Word = Word {
    label: 0,
    payload: 0,
};

// How many SEQs stand around a wait in a term of 1,024 words.
const LEVELS: usize = 511;

// SEQ(SEQ(.. SEQ(AWAIT 0, NOP) .., NOP), NOP).
fn nested(heap: Global) -> Result<Vec<u32>, AllocError> {
    let mut words = Vec::new(heap);
    push_many(&mut words, SEQ, LEVELS)?;
    push_many(&mut words, AWAIT, 1)?;
    push_many(&mut words, INPUT, 1)?;
    push_many(&mut words, NOP, LEVELS)?;
    Ok(words)
}

// A wait that isn't met is found behind all levels, and the term stays.
fn measure_waits(rt: &(impl Clock + Print + AllocGlobal), words: &[u32]) -> io::Result<()> {
    let mut machine = Machine::new(rt.alloc(), Sequence)?;
    if machine.load(words).is_err() {
        return println!(rt; "the term does not load");
    }
    let timed = time_rounds(rt, STEPS, || machine.step(0).is_ok())?;
    let nanos = timed.nanos();
    let waited = timed.done;
    println!(rt;
        "a step that waits, {LEVELS} levels deep in 1,024 words: {nanos} ns ({waited} steps)"
    )
}

// A load, and the step that writes the next term.
fn measure_moves(rt: &(impl Clock + Print + AllocGlobal), words: &[u32]) -> io::Result<()> {
    let mut machine = Machine::new(rt.alloc(), Sequence)?;
    let timed = time_rounds(rt, STEPS, || {
        machine.load(words).is_ok() && machine.step(1).is_ok()
    })?;
    let nanos = timed.nanos();
    let moved = timed.done;
    println!(rt;
        "a load of 1,024 words and a step that moves, {LEVELS} levels deep: {nanos} ns ({moved} times)"
    )
}

pub fn measure_steps(rt: &(impl Clock + Print + AllocGlobal)) -> io::Result<()> {
    let words = nested(rt.alloc())?;
    measure_waits(rt, &words)?;
    measure_moves(rt, &words)
}
