// Runs a job: reads it from standard input, a command a line, and prints an account, a line for each command.

#![tactic(auto)]

mod account;
mod command;
mod job;
mod machine_command;
mod panel;
mod plan;
mod print;
mod refused;
mod stretch;
mod verdict;
mod words;

use job::{core_of, read_lines};
use print::Account;
use std::io;
use stretch::run_stretch;

fn main(rt: HostRuntime) -> io::Result<()> {
    let lines = read_lines(&rt)?;
    let mut account = Account::new(&rt);
    // A line that makes a machine begins a stretch of its own.
    for stretch in lines.chunk_by(|_, line| core_of(line).is_none()) {
        run_stretch(&mut account, stretch)?;
    }
    Ok(())
}
