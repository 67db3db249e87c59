// Runs cases one after the other on one place for a list, and counts the answers that differ.
use crate::case::{Accepted, Answer, Case, Refused, Told};
use lists::list::RuleList;
use lists::refusal::Fault;
use std::alloc::Global;
use std::io;
use tally::Tally;

#[derive(Drop)]
pub struct Runner<'a, R> {
    pub rt: &'a R,
    place: RuleList,
    // the last accepted list, read into a new place
    accepted: RuleList,
    pub tally: Tally,
}

fn answer(place: &mut RuleList, heap: Global, case: &Case<'_>) -> Answer {
    match place.accept(heap, case.header, case.table) {
        Ok(()) => Ok(Accepted(place.layer(), place.forms().len(), place.rules().len())),
        Err(refusal) => {
            let Fault { cause, place, .. } = Fault::from(refusal);
            Err(Refused(cause, place))
        }
    }
}

impl<'a, R: Print + AllocGlobal> Runner<'a, R> {
    pub fn new(rt: &'a R) -> Runner<'a, R> {
        Runner {
            rt,
            place: RuleList::new(rt.alloc()),
            accepted: RuleList::new(rt.alloc()),
            tally: Tally::default(),
        }
    }

    // Runs a case, and prints a line if its answer is another than expected, or if the place does not hold the last accepted list behind it.
    pub fn run(&mut self, case: &Case<'_>) -> io::Result<()> {
        let heap = self.rt.alloc();
        let name = case.name;
        let found = answer(&mut self.place, heap, case);
        if found.is_ok() {
            self.accepted = RuleList::new(heap);
            let _ = self.accepted.accept(heap, case.header, case.table);
        }
        let held = self.place == self.accepted;
        self.tally.count(found == case.answer && held);
        if found != case.answer {
            let expected = Told(case.answer);
            let found = Told(found);
            println!(self.rt; "{name}: expected {expected}, found {found}")
        } else if !held {
            println!(self.rt; "{name}: the place does not hold the last accepted list")
        } else {
            Ok(())
        }
    }
}
