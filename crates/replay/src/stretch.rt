// Runs a stretch of a job: the lines of one machine, or those before the first.
use crate::job::core_of;
use crate::machine_command::Core;
use crate::plan::plan_lines;
use crate::print::Account;
use languages::language::Language;
use languages::run::run;
use std::io;
use std::rt::Files;
use steppers::logic::Logic;
use steppers::machine::Machine;
use steppers::sequence::Sequence;
use steppers::stepper::Stepper;

// What is handed on for the capacity before the first machine; no line there prints it.
const NO_CAPACITY: usize = 0;

// The lines before the first machine: their calls have no answers.
fn run_without<R: Files + Print + AllocGlobal>(
    account: &mut Account<'_, R>,
    lines: &[Vec<u8>],
) -> io::Result<()> {
    let heap = account.rt.alloc();
    let plan = plan_lines(heap, lines)?;
    account.print_entries(NO_CAPACITY, plan.entries, Vec::new(heap))
}

// All calls of the lines are one run of the language.
fn run_with<R: Files + Print + AllocGlobal, L: Language + Drop>(
    account: &mut Account<'_, R>,
    mut language: L,
    capacity: usize,
    lines: &[Vec<u8>],
) -> io::Result<()> {
    let heap = account.rt.alloc();
    let plan = plan_lines(heap, lines)?;
    let answers = run(heap, &mut language, plan.calls)?;
    account.print_entries(capacity, plan.entries, answers)
}

// A new machine, which holds nothing, for the lines.
fn run_machine<R: Files + Print + AllocGlobal, S: Stepper + Drop>(
    account: &mut Account<'_, R>,
    stepper: S,
    lines: &[Vec<u8>],
) -> io::Result<()> {
    let machine = Machine::new(account.rt.alloc(), stepper)?;
    run_with(account, machine, S::CAPACITY, lines)
}

// Runs the lines of a stretch. Each core language has a machine of its own type, so that a match tells them apart. The first line names the core language of its machine, or there is none yet.
pub fn run_stretch<R: Files + Print + AllocGlobal>(
    account: &mut Account<'_, R>,
    lines: &[Vec<u8>],
) -> io::Result<()> {
    match lines.first().and_then(|line| core_of(line)) {
        None => run_without(account, lines),
        Some(Core::Logic) => run_machine(account, Logic, lines),
        Some(Core::Sequence) => run_machine(account, Sequence, lines),
    }
}
