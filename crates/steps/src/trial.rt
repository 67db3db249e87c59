// A machine under trial: what it answers is compared with what was worked out, and counted.
use crate::case::{Case, Load};
use crate::words::spelled;
use languages::answers::Stepped;
use languages::language::Language;
use languages::refusal::Refusal;
use std::alloc::Global;
use std::io;
use tally::Tally;

// What stands in a buffer before it is lent.
const BLANK: u32 = 7;
// Some words more than a show needs.
const BUFFER: usize = 1100;

#[derive(Drop)]
pub struct Trial<'a, R, L: Drop> {
    pub rt: &'a R,
    pub language: L,
    pub tally: Tally,
}

impl<R: Print + AllocGlobal, L: Language + Drop> Trial<'_, R, L> {
    pub fn heap(&self) -> Global {
        self.rt.alloc()
    }

    // Counts a case, and names it if it differs.
    pub fn count(&mut self, name: &str, same: bool) -> io::Result<()> {
        self.tally.count(same);
        if same {
            return Ok(());
        }
        println!(self.rt; "{name}: differs")
    }

    // Whether a show gives exactly these words, and leaves the rest of the buffer.
    pub fn shows(&mut self, words: &[u32]) -> io::Result<bool> {
        let mut buffer = vec![in self.heap(); BLANK; BUFFER]?;
        let Ok(Some(count)) = self.language.show(&mut buffer) else {
            return Ok(false);
        };
        if count > buffer.len() {
            return Ok(false);
        }
        let (shown, behind) = buffer.split_at(count);
        Ok(shown == words && behind.iter().all(|word| *word == BLANK))
    }

    // Whether the words load, step to the answer, and leave these words held.
    pub fn steps(
        &mut self,
        before: &[u32],
        image: u32,
        answer: Stepped,
        after: &[u32],
    ) -> io::Result<bool> {
        let Ok(loaded) = self.language.load(before) else {
            return Ok(false);
        };
        if loaded.words != before.len() || loaded.uses != 0 {
            return Ok(false);
        }
        match self.language.step(image) {
            Ok(stepped) if stepped == answer => self.shows(after),
            _ => Ok(false),
        }
    }

    // Whether the load is refused so, and leaves these words held.
    pub fn refuses(&mut self, words: &[u32], refusal: Refusal, held: &[u32]) -> io::Result<bool> {
        match self.language.load(words) {
            Err(given) if given == refusal => self.shows(held),
            _ => Ok(false),
        }
    }

    pub fn run_steps(&mut self, cases: &[Case]) -> io::Result<()> {
        for case in cases {
            let before = spelled(self.heap(), case.before)?;
            let after = spelled(self.heap(), case.after)?;
            let same = self.steps(&before, case.image, case.answer, &after)?;
            self.count(case.name, same)?;
        }
        Ok(())
    }

    // Loads that are refused, each while this term is held.
    pub fn run_loads(&mut self, held: &str, cases: &[Load]) -> io::Result<()> {
        let held = spelled(self.heap(), held)?;
        if self.language.load(&held).is_err() {
            return self.count("the term to be held", false);
        }
        for case in cases {
            let words = spelled(self.heap(), case.words)?;
            let same = self.refuses(&words, case.refusal, &held)?;
            self.count(case.name, same)?;
        }
        Ok(())
    }
}
