// Words the answers of the account: what an answer says, or its refusal.
ghost use Rattle.std.specs.Prelude.{Some};
ghost use Rattle.replay.specs.Account.{summary_text, accepted_text, outcome_text, list_text};

use crate::refused::{Explained, Refused};
use crate::verdict::Summary;
use lists::refusal::Refusal;
use std::fmt;

// The answer of a list or a call.
#[derive(Clone, Copy)]
pub struct Outcome<T, R>(pub Result<T, R>);

impl<T: fmt::Display, R: Explained> fmt::Display for Outcome<T, R> {
    ghost output = { λ x. outcome_text T.output R.fault R.sentence x.0 };

    fn fmt<W: fmt::Write>(&self, f: &mut fmt::Formatter<W>) -> fmt::Result {
        match &self.0 {
            Ok(answer) => answer.fmt(f),
            Err(refusal) => Refused(*refusal).fmt(f),
        }
    }
}

// What was accepted.
#[derive(Clone, Copy)]
pub struct Accepted<T>(pub T);

impl<T: fmt::Display> fmt::Display for Accepted<T> {
    ghost output = { λ x. accepted_text (T.output x.0) };

    fn fmt<W: fmt::Write>(&self, f: &mut fmt::Formatter<W>) -> fmt::Result {
        let accepted = &self.0;
        write!(f, "accepted, {accepted}")
    }
}

impl fmt::Display for Summary {
    ghost output = { λ s. Some (summary_text s) };

    fn fmt<W: fmt::Write>(&self, f: &mut fmt::Formatter<W>) -> fmt::Result {
        let Summary {
            layer,
            forms,
            rules,
        } = *self;
        write!(f, "layer {layer}, forms {forms}, rules {rules}")
    }
}

// The line of the account for a list: its two files, and what became of it.
#[derive(Clone, Copy)]
pub struct ListLine<'a> {
    pub header: &'a str,
    pub table: &'a str,
    pub verdict: Outcome<Accepted<Summary>, Refusal>,
}

impl fmt::Display for ListLine<'_> {
    ghost output = { λ l. Some (list_text l.header.now l.table.now l.verdict.0) };

    fn fmt<W: fmt::Write>(&self, f: &mut fmt::Formatter<W>) -> fmt::Result {
        let ListLine {
            header,
            table,
            verdict,
        } = *self;
        write!(f, "list {header} {table}: {verdict}")
    }
}
