// Cuts a text into lines and a line into fields, as stretches of the text itself.
ghost use Rattle.std.specs.Prelude.{◌≡◌, ◌<◌, length, Some, None, codes, ◌==◌};
ghost use Rattle.std.specs.Option.{option_map};
ghost use Rattle.texts.specs.Texts.{byte_of, behind, said};
ghost use Rattle.texts.specs.Pieces.{FirstPiece, NextLine, Begins, rest_of, line_says, line_means};

// What parts a text: byte 10 its lines, a comma the fields of a line.
#[derive(Clone, Copy)]
pub(crate) enum Separator {
    LineEnd,
    Comma,
}

impl Separator {
    pub(crate) fn is_at(self, byte: u8) -> bool
        ensures { result ≡ (byte == byte_of self) }
    {
        match (self, byte as char) {
            (Separator::LineEnd, '\n') => true,
            (Separator::Comma, ',') => true,
            _ => false,
        }
    }
}

// The first piece of a text, up to a separator or the end.
#[derive(Clone, Copy)]
pub struct Piece<'a> {
    pub bytes: &'a [u8],
    // what stands behind the separator that ended the piece; none where the text ends
    pub behind: Option<&'a [u8]>,
}

impl<'a> Piece<'a> {
    // The text behind the piece: nothing where the text ends.
    pub fn rest(self) -> &'a [u8]
        ensures { result.now ≡ rest_of self.entry }
    {
        self.behind.unwrap_or_default()
    }
}

// Cuts the first piece off a text, up to the end of its first line.
fn cut(text: &[u8]) -> Piece<'_>
    ensures { FirstPiece 10 text.now result }
{
    match text.iter().position(|byte| Separator::LineEnd.is_at(*byte)) {
        Some(size) => Piece {
            bytes: &text[..size],
            behind: Some(&text[size + 1..]),
        },
        None => Piece {
            bytes: text,
            behind: None,
        },
    }
}

// The same, by what it says of the text's lines.
fn cut_line(text: &[u8]) -> Piece<'_>
    ensures line { 0 < length text.now → NextLine text.now (Some result) }
    ensures none { length text.now ≡ 0 → NextLine text.now None }
{
    cut(text)
}

// The next line of a text; none at its end.
pub fn next_line(text: &[u8]) -> Option<Piece<'_>>
    ensures { NextLine text.now result }
{
    let line = cut_line(text);
    if text.is_empty() { None } else { Some(line) }
}

// A line by its first field, with the fields behind it.
#[derive(Clone, Copy)]
pub enum Line<'a> {
    Head(&'a [u8]),
    Form(&'a [u8]),
    Table(&'a [u8]),
    Rule(&'a [u8]),
}

// The words that a line may begin with.
#[derive(Clone, Copy)]
pub enum Word {
    Head,
    Form,
    Rule,
    Table,
}

// Tells the first five bytes of a line; `table` has its comma behind them.
fn first_word(bytes: &[u8; 5]) -> Option<Word>
    ensures { Begins bytes.now result }
{
    let [a, b, c, d, e] = *bytes;
    match (a as char, b as char, c as char, d as char, e as char) {
        ('h', 'e', 'a', 'd', ',') => Some(Word::Head),
        ('f', 'o', 'r', 'm', ',') => Some(Word::Form),
        ('r', 'u', 'l', 'e', ',') => Some(Word::Rule),
        ('t', 'a', 'b', 'l', 'e') => Some(Word::Table),
        _ => None,
    }
}

// The fields behind a comma.
fn behind_comma(bytes: &[u8]) -> Option<&[u8]>
    ensures { option_map (λ x. x.now) result ≡ behind (codes ",") bytes.now }
{
    let (first, fields) = bytes.split_first()?;
    match *first as char {
        ',' => Some(fields),
        _ => None,
    }
}

// Reads the first field of a line's bytes; none where the line is broken there.
fn field_of(bytes: &[u8]) -> Option<Line<'_>>
    ensures { line_means result ≡ said bytes.now }
{
    let (word, behind) = bytes.split_first_chunk::<5>()?;
    match first_word(word)? {
        Word::Head => Some(Line::Head(behind)),
        Word::Form => Some(Line::Form(behind)),
        Word::Rule => Some(Line::Rule(behind)),
        Word::Table => Some(Line::Table(behind_comma(behind)?)),
    }
}

// Reads the first field of a line; a line that byte 10 doesn't end is broken.
pub fn first_field(line: Piece<'_>) -> Option<Line<'_>>
    ensures { line_means result ≡ line_says line.entry }
{
    match line.behind {
        Some(_) => field_of(line.bytes),
        None => None,
    }
}
