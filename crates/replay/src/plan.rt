// Reads the lines of a stretch: what the account says of each, and the calls of the machine in order.
ghost use Rattle.std.specs.Prelude.{◌≡◌, List, [], ◌∷◌, map, IfOk, vec_items, codes};
ghost use Rattle.languages.specs.declared.calls.Call.{Call};
ghost use Rattle.replay.specs.Commands.{words_of};
ghost use Rattle.replay.specs.MachineCommands.{NamesNoMachineCommand};
ghost use Rattle.replay.specs.Plans.{Says, Repeats, SpacesCut, SaysOfLine, Plans, PlansAll};

use crate::command::{Command, Misread, parse};
use crate::machine_command::{MachineCommand, MachineMisread, parse_machine};
use crate::words::read_words;
use languages::calls::Call;
use std::alloc::{AllocError, Global};
use std::str::from_utf8;

// A line of the account; what it repeats of the job's line is without the spaces around it.
#[derive(Clone, Copy)]
pub enum Entry<'a> {
    // a blank line or a comment
    Nothing,
    NoText,
    Misread(Misread<'a>),
    MachineMisread(MachineMisread<'a>),
    // this word of a load is none
    NoWord(&'a str),
    List { header: &'a str, table: &'a str },
    Held,
    // a new machine
    Core(&'a str),
    // a call, which has an answer
    Call(&'a str),
}

// Two lists, since a run takes its calls as one list and gives one of answers; each entry of a call has the next answer.
#[derive(Drop)]
pub struct Plan<'a> {
    pub entries: Vec<Entry<'a>>,
    pub calls: Vec<Call>,
}

// A load of the words, which stand in this line, if they all are words.
fn plan_load<'a>(
    heap: Global,
    line: &'a str,
    words: &'a str,
    calls: &mut Vec<Call>,
) -> Result<Entry<'a>, AllocError>
    ensures { IfOk result (λ e. Says (codes "load" ∷ words_of words.now) e × Repeats (λ t. t ≡ line.now) e × Plans (codes "load" ∷ words_of words.now) calls.old.items e calls.new.items) }
{
    match read_words(heap, words)? {
        Ok(words) => {
            calls.push(Call::Load(words))?;
            Ok(Entry::Call(line))
        }
        Err(word) => Ok(Entry::NoWord(word)),
    }
}

// What a line asks for that asks nothing of the machine.
fn plan_other(line: &str) -> Entry<'_>
    ensures says { NamesNoMachineCommand (words_of line.now) → Says (words_of line.now) result }
    ensures repeats { Repeats (λ t. ⊥) result }
    ensures plans { (calls : List Call) → Plans (words_of line.now) calls result calls }
{
    match parse(line) {
        Ok(Command::Nothing) => Entry::Nothing,
        Ok(Command::List { header, table }) => Entry::List { header, table },
        Ok(Command::Held) => Entry::Held,
        Err(misread) => Entry::Misread(misread),
    }
}

// What a line asks for. If that is a call, it is put behind the others.
fn plan_line<'a>(
    heap: Global,
    bytes: &'a [u8],
    calls: &mut Vec<Call>,
) -> Result<Entry<'a>, AllocError>
    ensures { IfOk result (λ e. SaysOfLine bytes.now e × Repeats (SpacesCut bytes.now) e × Plans (words_of bytes.now) calls.old.items e calls.new.items) }
{
    let Ok(text) = from_utf8(bytes) else {
        return Ok(Entry::NoText);
    };
    let line = text.trim_matches(' ');
    match parse_machine(text) {
        Some(Ok(MachineCommand::Core(_))) => Ok(Entry::Core(line)),
        Some(Ok(MachineCommand::Load { words })) => plan_load(heap, line, words, calls),
        Some(Ok(MachineCommand::Step { image })) => {
            calls.push(Call::Step(image))?;
            Ok(Entry::Call(line))
        }
        Some(Ok(MachineCommand::Show { length })) => {
            calls.push(Call::Show(vec![in heap; 0; length]?))?;
            Ok(Entry::Call(line))
        }
        Some(Err(misread)) => Ok(Entry::MachineMisread(misread)),
        None => Ok(plan_other(text)),
    }
}

pub fn plan_lines<'a>(heap: Global, lines: &'a [Vec<u8>]) -> Result<Plan<'a>, AllocError>
    ensures { IfOk result (λ p. PlansAll (map vec_items lines.now) [] p.entries.items p.calls.items) }
{
    let mut entries = Vec::new(heap);
    let mut calls = Vec::new(heap);
    for line in lines {
        entries.push(plan_line(heap, line, &mut calls)?)?;
    }
    Ok(Plan { entries, calls })
}
