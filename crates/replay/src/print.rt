// Prints the account of a job, a line for each line of the job that asks for something.
use crate::account::{Accepted, ListLine, Outcome};
use crate::panel::{Load, Step, Term};
use crate::plan::Entry;
use crate::refused::Refused;
use crate::verdict::{Summary, decide};
use languages::calls::Answer;
use languages::refusal::Refusal;
use lists::list::RuleList;
use std::rt::Files;
use std::{fs, io};

// What becomes of a job's lines, and where it is printed.
#[derive(Drop)]
pub struct Account<'a, R> {
    pub rt: &'a R,
    // the list that is in force
    pub place: RuleList,
    // the line of the job that was told last
    pub number: u64,
}

impl<'a, R: Files + Print + AllocGlobal> Account<'a, R> {
    pub fn new(rt: &'a R) -> Account<'a, R> {
        Account {
            rt,
            place: RuleList::new(rt.alloc()),
            number: 0,
        }
    }

    // Reads a file's bytes; where that fails, says so in the account and answers none.
    fn read_file(&self, path: &str) -> io::Result<Option<Vec<u8>>> {
        match fs::read(self.rt, path) {
            Ok(bytes) => Ok(Some(bytes)),
            Err(e) => {
                let kind = e.kind();
                let number = self.number;
                println!(self.rt; "line {number}: cannot read {path}: {kind}")?;
                Ok(None)
            }
        }
    }

    // Accepts the list of two files into the place, or refuses it.
    fn print_list(&mut self, header: &str, table: &str) -> io::Result<()> {
        let Some(header_text) = self.read_file(header)? else {
            return Ok(());
        };
        let Some(table_text) = self.read_file(table)? else {
            return Ok(());
        };
        let decided = decide(&mut self.place, self.rt.alloc(), &header_text, &table_text);
        self.rt.println(ListLine {
            header,
            table,
            verdict: Outcome(decided.map(Accepted)),
        })
    }

    // The answer of a show: the term's words are the first of the buffer.
    fn print_show(
        &self,
        line: &str,
        shown: Result<Option<usize>, Refusal>,
        buffer: &[u32],
    ) -> io::Result<()> {
        match shown {
            Ok(Some(count)) => {
                let term = Term(&buffer[..count.min(buffer.len())]);
                println!(self.rt; "{line}: {term}")
            }
            Ok(None) => println!(self.rt; "{line}: nothing"),
            Err(refusal) => {
                let refused = Refused(refusal);
                println!(self.rt; "{line}: {refused}")
            }
        }
    }

    fn print_answer(&self, line: &str, answer: Answer) -> io::Result<()> {
        match answer {
            Answer::Load(answer) => {
                let load = Load(answer);
                println!(self.rt; "{line}: {load}")
            }
            Answer::Step(answer) => {
                let step = Step(answer);
                println!(self.rt; "{line}: {step}")
            }
            Answer::Show(shown, buffer) => self.print_show(line, shown, &buffer),
        }
    }

    // A line of the account; a call without an answer was made before there was a machine.
    fn print_entry(
        &mut self,
        capacity: usize,
        entry: Entry<'_>,
        answer: Option<Answer>,
    ) -> io::Result<()> {
        let number = self.number;
        match (entry, answer) {
            (Entry::Nothing, _) => Ok(()),
            (Entry::NoText, _) => println!(self.rt; "line {number}: the line is no text"),
            (Entry::Misread(misread), _) => println!(self.rt; "line {number}: {misread}"),
            (Entry::MachineMisread(misread), _) => println!(self.rt; "line {number}: {misread}"),
            (Entry::NoWord(word), _) => {
                println!(self.rt; "line {number}: {word} is no word label:payload")
            }
            (Entry::List { header, table }, _) => self.print_list(header, table),
            (Entry::Held, _) => {
                let held = Summary::from(&self.place);
                println!(self.rt; "held: {held}")
            }
            (Entry::Core(line), _) => println!(self.rt; "{line}: capacity {capacity}"),
            (Entry::Call(line), Some(answer)) => self.print_answer(line, answer),
            (Entry::Call(_), None) => println!(self.rt;
                "line {number}: there is no machine yet; a line core logic or core sequence makes one"
            ),
        }
    }

    // Prints the entries of the job's next lines, each call with the next answer.
    pub fn print_entries(
        &mut self,
        capacity: usize,
        entries: Vec<Entry<'_>>,
        answers: Vec<Answer>,
    ) -> io::Result<()> {
        let mut answers = answers.into_iter();
        for entry in entries {
            // counted by hand, since it goes on from one stretch of the job to the next
            self.number = self.number.saturating_add(1);
            let answer = match entry {
                Entry::Call(_) => answers.next(),
                _ => None,
            };
            self.print_entry(capacity, entry, answer)?;
        }
        Ok(())
    }
}
