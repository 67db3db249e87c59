// Runs tables of steps and loads, worked out by hand, on both core languages, and tells which answers differ.

#![tactic(auto)]

mod case;
mod loads;
mod logic;
mod long;
mod sequence;
mod trial;
mod words;

use std::io;
use steppers::logic::Logic;
use steppers::machine::Machine;
use steppers::sequence::Sequence;
use tally::Tally;
use trial::Trial;

fn run_logic(rt: &(impl Print + AllocGlobal), tally: Tally) -> io::Result<Tally> {
    let mut trial = Trial {
        rt,
        language: Machine::new(rt.alloc(), Logic)?,
        tally,
    };
    trial.run_new()?;
    trial.run_steps(logic::CASES)?;
    trial.run_loads("17:1 0:1", loads::LOGIC)?;
    Ok(trial.tally)
}

fn run_sequence(rt: &(impl Print + AllocGlobal), tally: Tally) -> io::Result<Tally> {
    let mut trial = Trial {
        rt,
        language: Machine::new(rt.alloc(), Sequence)?,
        tally,
    };
    trial.run_new()?;
    trial.run_steps(sequence::CASES)?;
    trial.run_loads("33:1 0:1", loads::SEQUENCE)?;
    trial.run_long()?;
    Ok(trial.tally)
}

fn main(rt: HostRuntime) -> io::Result<()> {
    let tally = run_logic(&rt, Tally::default())?;
    let tally = run_sequence(&rt, tally)?;
    println!(rt; "{tally}")
}
