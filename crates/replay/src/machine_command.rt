// Tells what a line of a job asks of the machine.
ghost use Rattle.std.specs.Prelude.{◌∷◌, MatchOption, codes};
ghost use Rattle.replay.specs.Commands.{words_of};
ghost use Rattle.replay.specs.MachineCommands.{OnlyWord, NamesNoMachineCommand, AsksMachine};

use crate::command::{is_blank, next_word, one_word};
use languages::language::SHOWN_WORDS;
use std::fmt;
use texts::number::number;

const LAST_IMAGE: u32 = u32::MAX;
// The longest buffer that the program lends for a show.
const LONGEST_BUFFER: u32 = 4096;

// The core language of a machine.
#[derive(Clone, Copy)]
pub enum Core {
    Logic,
    Sequence,
}

// A command for the machine.
#[derive(Clone, Copy)]
pub enum MachineCommand<'a> {
    // make a new machine
    Core(Core),
    // load these words, as they stand in the line
    Load { words: &'a str },
    // step with these inputs
    Step { image: u32 },
    // show into a buffer of this length
    Show { length: usize },
}

// Why a line that begins like a command for the machine is none. These are the cases of `parse_machine`, as those of `Misread` are of `parse`.
#[derive(Clone, Copy)]
pub enum MachineMisread<'a> {
    WrongWords { usage: &'static str },
    // no core language has this name
    NoCore(&'a str),
    // not a number in base ten up to the largest that the command takes
    NoNumber(&'a str),
}

impl fmt::Display for MachineMisread<'_> {
    fn fmt<W: fmt::Write>(&self, f: &mut fmt::Formatter<W>) -> fmt::Result {
        match *self {
            MachineMisread::WrongWords { usage } => write!(
                f,
                "wrong number of words, the command is: {usage}"
            ),
            MachineMisread::NoCore(word) => write!(
                f,
                "there is no core language {word}, only logic and sequence"
            ),
            MachineMisread::NoNumber(word) => {
                write!(f, "{word} is no number that the command takes")
            }
        }
    }
}

// The one word of a line that must have one.
fn only_word<'a>(words: &'a str, usage: &'static str) -> Result<&'a str, MachineMisread<'a>>
    ensures { OnlyWord (words_of words.now) usage.now result }
{
    one_word(words).ok_or(MachineMisread::WrongWords { usage })
}

fn parse_core(words: &str) -> Result<MachineCommand<'_>, MachineMisread<'_>>
    ensures { AsksMachine (codes "core" ∷ words_of words.now) result }
{
    match only_word(words, "core logic or core sequence")? {
        "logic" => Ok(MachineCommand::Core(Core::Logic)),
        "sequence" => Ok(MachineCommand::Core(Core::Sequence)),
        name => Err(MachineMisread::NoCore(name)),
    }
}

fn parse_step(words: &str) -> Result<MachineCommand<'_>, MachineMisread<'_>>
    ensures { AsksMachine (codes "step" ∷ words_of words.now) result }
{
    let word = only_word(words, "step IMAGE")?;
    let image = number(word.as_bytes(), LAST_IMAGE).ok_or(MachineMisread::NoNumber(word))?;
    Ok(MachineCommand::Step { image })
}

fn parse_show(words: &str) -> Result<MachineCommand<'_>, MachineMisread<'_>>
    ensures { AsksMachine (codes "show" ∷ words_of words.now) result }
{
    if is_blank(words) {
        return Ok(MachineCommand::Show {
            length: SHOWN_WORDS,
        });
    }
    let word = only_word(words, "show or show LENGTH")?;
    let length = number(word.as_bytes(), LONGEST_BUFFER).ok_or(MachineMisread::NoNumber(word))?;
    Ok(MachineCommand::Show {
        length: length as usize,
    })
}

// What a line asks of the machine; none for any other line. The match has a line for each command, as in `parse`.
pub fn parse_machine(line: &str) -> Option<Result<MachineCommand<'_>, MachineMisread<'_>>>
    ensures { MatchOption result (NamesNoMachineCommand (words_of line.now)) (AsksMachine (words_of line.now)) }
{
    let (name, words) = next_word(line)?;
    match name {
        "core" => Some(parse_core(words)),
        "load" => Some(Ok(MachineCommand::Load { words })),
        "step" => Some(parse_step(words)),
        "show" => Some(parse_show(words)),
        _ => None,
    }
}
