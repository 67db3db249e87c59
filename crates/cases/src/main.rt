// Runs pairs of texts through acceptance, and tells which answers differ from those that the rules give.

#![tactic(auto)]

mod built;
mod case;
mod fields;
mod forms;
mod lines;
mod orders;
mod rules;
mod runner;
mod sides;

use built::Built;
use case::Case;
use runner::Runner;
use std::io;

fn run_cases<R: Print + AllocGlobal>(
    runner: &mut Runner<'_, R>,
    cases: &[Case<'_>],
) -> io::Result<()> {
    for case in cases {
        runner.run(case)?;
    }
    Ok(())
}

fn run_built<R: Print + AllocGlobal>(
    runner: &mut Runner<'_, R>,
    cases: &[Built],
) -> io::Result<()> {
    for case in cases {
        let header = case.header.build(runner.rt.alloc())?;
        let table = case.table.build(runner.rt.alloc())?;
        runner.run(&Case {
            name: case.name,
            header: &header,
            table: &table,
            answer: case.answer,
        })?;
    }
    Ok(())
}

fn main(rt: HostRuntime) -> io::Result<()> {
    let mut runner = Runner::new(&rt);
    run_cases(&mut runner, lines::CASES)?;
    run_cases(&mut runner, fields::CASES)?;
    run_cases(&mut runner, forms::CASES)?;
    run_cases(&mut runner, rules::CASES)?;
    run_cases(&mut runner, sides::LEFT)?;
    run_cases(&mut runner, sides::RIGHT)?;
    run_cases(&mut runner, sides::VARIABLES)?;
    run_cases(&mut runner, orders::FIRST)?;
    run_cases(&mut runner, orders::RULES)?;
    run_built(&mut runner, built::LISTS)?;
    run_built(&mut runner, built::LENGTHS)?;
    let tally = runner.tally;
    println!(rt; "{tally}")
}
