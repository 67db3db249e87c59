// Times acceptance, the end finder and steps. It measures only where its standard input has the word `measure`.

#![tactic(auto)]

mod list_texts;
mod rounds;
mod runs;
mod steps;

use lists::list::RuleList;
use rounds::{Timed, time_rounds};
use std::io;
use std::rt::Clock;
use terms::front::end;

const ACCEPTANCES: u32 = 5_000;

const SEARCHES: u32 = 200_000;

// How long the end finder takes on the words, in all its rounds. Each round has another last word, so that none is left out.
fn time_end(rt: &(impl Clock + Print), words: &mut Vec<u32>) -> io::Result<Timed> {
    let mut found: usize = 0;
    let mut last: u32 = 0;
    let timed = time_rounds(rt, SEARCHES, || {
        if let Some(word) = words.last_mut() {
            *word = last;
        }
        last = last.wrapping_add(1);
        let ended = end(words);
        found = found.wrapping_add(ended.unwrap_or(0));
        ended.is_ok()
    })?;
    let all = words.len().wrapping_mul(SEARCHES as usize);
    if found != all {
        println!(rt; "the end finder found {found} words in all, and not {all}")?;
    }
    Ok(timed)
}

fn measure_end(rt: &(impl Clock + Print), kind: &str, words: &mut Vec<u32>) -> io::Result<()> {
    let nanos = time_end(rt, words)?.nanos();
    let size = words.len();
    println!(rt;
        "the end finder on {size} words, {kind}: {nanos} ns a search ({SEARCHES} searches)"
    )
}

fn measure_accept(rt: &(impl Clock + Print + AllocGlobal)) -> io::Result<()> {
    let heap = rt.alloc();
    let header = list_texts::HEADER.as_bytes();
    let table = list_texts::table(heap)?;
    let mut place = RuleList::new(heap);
    let timed = time_rounds(rt, ACCEPTANCES, || {
        place.accept(heap, header, table.as_bytes()).is_ok()
    })?;
    let rules = place.rules().len();
    let size = table.len();
    let rate = timed.rate();
    let accepted = timed.done;
    println!(rt;
        "a list of {rules} rules of 9 left and 64 right words, table of {size} bytes: accepted {rate} times a second"
    )?;
    println!(rt; "({accepted} of {ACCEPTANCES} acceptances)")
}

fn measure(rt: &(impl Clock + Print + AllocGlobal)) -> io::Result<()> {
    measure_accept(rt)?;
    measure_end(rt, "5 levels", &mut runs::shallow(rt.alloc())?)?;
    measure_end(rt, "1,000 levels", &mut runs::deep(rt.alloc())?)?;
    steps::measure_steps(rt)
}

fn main(rt: HostRuntime) -> io::Result<()> {
    let mut line = String::new(rt.alloc());
    rt.read_line(&mut line)?;
    if line.trim() == "measure" {
        measure(&rt)
    } else {
        Ok(())
    }
}
