// Tells what a line of a job asks for.
ghost use Rattle.std.specs.Prelude.{◌≡◌, ◌∷◌, length, codes, ◌==◌};
ghost use Rattle.replay.specs.Commands.{words_of, FirstOf, OneOf, TwoOf, Asks};

use std::fmt;

// A command of a job.
#[derive(Clone, Copy)]
pub enum Command<'a> {
    // a blank line or a comment
    Nothing,
    // accept the list whose texts stand in these two files
    List { header: &'a str, table: &'a str },
    // tell which list is in force
    Held,
}

// Why a line is no command.
#[derive(Clone, Copy)]
pub enum Misread<'a> {
    Unknown(&'a str),
    WrongWords { usage: &'static str },
}

impl fmt::Display for Misread<'_> {
    fn fmt<W: fmt::Write>(&self, f: &mut fmt::Formatter<W>) -> fmt::Result {
        match *self {
            Misread::Unknown(word) => write!(f, "there is no command {word}"),
            Misread::WrongWords { usage } => write!(
                f,
                "wrong number of words, the command is: {usage}"
            ),
        }
    }
}

// The first word of a line, words being parted by spaces, and what stands behind it.
pub(crate) fn next_word(line: &str) -> Option<(&str, &str)>
    ensures { FirstOf (words_of line.now) result }
{
    let words = line.trim_start_matches(' ');
    if words.is_empty() {
        return None;
    }
    match words.split_once(' ') {
        Some(parts) => Some(parts),
        None => Some((words, "")),
    }
}

// Whether no word is left.
pub(crate) fn is_blank(line: &str) -> bool
    ensures { result ≡ (length (words_of line.now) == 0) }
{
    next_word(line).is_none()
}

// The one word of a line that has one.
pub(crate) fn one_word(line: &str) -> Option<&str>
    ensures { OneOf (words_of line.now) result }
{
    let (word, behind) = next_word(line)?;
    if is_blank(behind) { Some(word) } else { None }
}

// The two words of a line that has two.
fn two_words(line: &str) -> Option<(&str, &str)>
    ensures { TwoOf (words_of line.now) result }
{
    let (first, behind) = next_word(line)?;
    Some((first, one_word(behind)?))
}

fn parse_list(words: &str) -> Result<Command<'_>, Misread<'_>>
    ensures { Asks (codes "list" ∷ words_of words.now) result }
{
    let (header, table) = two_words(words).ok_or(Misread::WrongWords {
        usage: "list HEADER-FILE TABLE-FILE",
    })?;
    Ok(Command::List { header, table })
}

fn parse_held(words: &str) -> Result<Command<'_>, Misread<'_>>
    ensures { Asks (codes "held" ∷ words_of words.now) result }
{
    if is_blank(words) {
        Ok(Command::Held)
    } else {
        Err(Misread::WrongWords { usage: "held" })
    }
}

// The command of a line, by its first word. The match has a line for each command, which a table of functions could not say shorter.
pub fn parse(line: &str) -> Result<Command<'_>, Misread<'_>>
    ensures { Asks (words_of line.now) result }
{
    let Some((name, words)) = next_word(line) else {
        return Ok(Command::Nothing);
    };
    match name {
        "list" => parse_list(words),
        "held" => parse_held(words),
        _ if name.starts_with('#') => Ok(Command::Nothing),
        _ => Err(Misread::Unknown(name)),
    }
}
