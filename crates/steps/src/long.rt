// Cases about a new machine, and about the capacity with terms that are built.
use crate::trial::Trial;
use crate::words::{chain, repeated, unrolled};
use languages::answers::Stepped;
use languages::language::Language;
use languages::refusal::Refusal;
use std::io;

const CAPACITY: usize = 1024;
// The longest body without marks of a repetition, once, whose next term is within the capacity.
const LONGEST_BODY: usize = 510;

const MOVED: Stepped = Stepped::Moved { effect: 0 };

impl<R: Print + AllocGlobal, L: Language + Drop> Trial<'_, R, L> {
    // A repetition, once, of a body of LONGEST_BODY words moves, and of one word more is full and keeps its term.
    fn repetitions(&mut self) -> io::Result<()> {
        let body = chain(self.heap(), LONGEST_BODY)?;
        let before = repeated(self.heap(), &body)?;
        let after = unrolled(self.heap(), &body)?;
        let same = self.steps(&before, 0, MOVED, &after)?;
        self.count("a repetition of 510 words moves", same)?;
        let body = chain(self.heap(), LONGEST_BODY + 1)?;
        let before = repeated(self.heap(), &body)?;
        let same = self.steps(&before, 0, Stepped::Full, &before)?;
        self.count("a repetition of 511 words is full", same)
    }

    // A term of exactly the capacity is held and steps, and one of a word more is refused.
    fn lengths(&mut self) -> io::Result<()> {
        let longest = chain(self.heap(), CAPACITY)?;
        let after = chain(self.heap(), CAPACITY - 2)?;
        let same = self.steps(&longest, 0, MOVED, &after)?;
        self.count("a term of 1,024 words steps", same)?;
        let longer = chain(self.heap(), CAPACITY + 1)?;
        let refusal = Refusal::TooLong {
            layer: 0,
            most: CAPACITY,
        };
        let same = self.refuses(&longer, refusal, &after)?;
        self.count("a term of 1,025 words is refused", same)
    }

    // A machine that is new holds nothing.
    pub fn run_new(&mut self) -> io::Result<()> {
        let stepped = self.language.step(0).is_err();
        self.count("a new machine has no step", stepped)?;
        let shown = self.shows(&[])?;
        self.count("a new machine shows nothing", !shown)
    }

    pub fn run_long(&mut self) -> io::Result<()> {
        self.repetitions()?;
        self.lengths()
    }
}
