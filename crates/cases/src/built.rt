// Pairs of texts that are too long to write out, and how they are built.
use crate::case::{Accepted, Answer, HEADER, Refused, TABLE};
use std::alloc::{AllocError, Global};

// The first label that layer 1 owns.
const FIRST_LABEL: u32 = 64;

// A text by its parts.
#[derive(Clone, Copy)]
pub enum Text {
    Plain(&'static [u8]),
    // the header of a list of layer 1 that declares so many forms and rules: lines for forms from 64 on, without children
    Forms {
        forms: u32,
        rules: u32,
        lines: u32,
    },
    // its table: lines for the rules of those forms, each to NOP, and a last stretch
    Rules {
        rules: u32,
        lines: u32,
        last: &'static [u8],
    },
    // one rule, P(a, b) to NOT of NOT of .. 0, with so many words on the right
    Deep {
        words: u32,
    },
    // a front, and zeros up to so many bytes
    Filled {
        front: &'static [u8],
        size: usize,
    },
}

#[derive(Clone, Copy)]
pub struct Built {
    pub name: &'static str,
    pub header: Text,
    pub table: Text,
    pub answer: Answer,
}

// A text and so many lines behind it.
fn with_lines<F: Fn(u32) -> Result<String, AllocError>>(
    mut text: String,
    lines: u32,
    line: F,
) -> Result<String, AllocError>
    requires { F.IsAlwaysCallable line }
{
    for i in 0..lines {
        text.push_str(line(i)?.as_str())?;
    }
    Ok(text)
}

fn forms_text(heap: Global, forms: u32, rules: u32, lines: u32) -> Result<String, AllocError> {
    let head = format!(in heap; "head,1,{forms},{rules}\n")?;
    with_lines(head, lines, |i| {
        let label = i.saturating_add(FIRST_LABEL);
        format!(in heap; "form,{label},0\n")
    })
}

fn rules_text(heap: Global, rules: u32, lines: u32) -> Result<String, AllocError> {
    let head = format!(in heap; "table,1,{rules}\n")?;
    with_lines(head, lines, |i| {
        let label = i.saturating_add(FIRST_LABEL);
        format!(in heap; "rule,{i},1,1,{label},0,38,0\n")
    })
}

fn deep_text(heap: Global, words: u32) -> Result<String, AllocError> {
    let mut text = format!(in heap; "table,1,1\nrule,0,3,{words},64,2,2,0,2,1")?;
    for _ in 1..words {
        text.push_str(",17,1")?;
    }
    text.push_str(",0,0\n")?;
    Ok(text)
}

fn bytes_of(heap: Global, text: &[u8]) -> Result<Vec<u8>, AllocError> {
    let mut bytes = Vec::new(heap);
    bytes.extend_from_slice(text)?;
    Ok(bytes)
}

fn filled(heap: Global, front: &[u8], size: usize) -> Result<Vec<u8>, AllocError> {
    let mut bytes = bytes_of(heap, front)?;
    bytes.resize(size.max(front.len()), b'0')?;
    Ok(bytes)
}

impl Text {
    pub fn build(self, heap: Global) -> Result<Vec<u8>, AllocError> {
        match self {
            Text::Plain(text) => bytes_of(heap, text),
            Text::Forms {
                forms,
                rules,
                lines,
            } => bytes_of(heap, forms_text(heap, forms, rules, lines)?.as_bytes()),
            Text::Rules { rules, lines, last } => {
                let mut bytes = bytes_of(heap, rules_text(heap, rules, lines)?.as_bytes())?;
                bytes.extend_from_slice(last)?;
                Ok(bytes)
            }
            Text::Deep { words } => bytes_of(heap, deep_text(heap, words)?.as_bytes()),
            Text::Filled { front, size } => filled(heap, front, size),
        }
    }
}

// Long lists.
pub const LISTS: &[Built] = &[
    Built {
        name: "32 forms and 32 rules",
        header: Text::Forms {
            forms: 32,
            rules: 32,
            lines: 32,
        },
        table: Text::Rules {
            rules: 32,
            lines: 32,
            last: b"",
        },
        answer: Ok(Accepted(1, 32, 32)),
    },
    Built {
        name: "31 lines for 32 forms",
        header: Text::Forms {
            forms: 32,
            rules: 32,
            lines: 31,
        },
        table: Text::Rules {
            rules: 32,
            lines: 32,
            last: b"",
        },
        answer: Err(Refused(12, 33)),
    },
    Built {
        name: "33 lines for 32 forms",
        header: Text::Forms {
            forms: 32,
            rules: 32,
            lines: 33,
        },
        table: Text::Rules {
            rules: 32,
            lines: 32,
            last: b"",
        },
        answer: Err(Refused(12, 34)),
    },
    Built {
        name: "33 forms with their lines",
        header: Text::Forms {
            forms: 33,
            rules: 32,
            lines: 33,
        },
        table: Text::Rules {
            rules: 32,
            lines: 32,
            last: b"",
        },
        answer: Err(Refused(11, 1)),
    },
    Built {
        name: "31 lines for 32 rules",
        header: Text::Forms {
            forms: 32,
            rules: 32,
            lines: 32,
        },
        table: Text::Rules {
            rules: 32,
            lines: 31,
            last: b"",
        },
        answer: Err(Refused(12, 1033)),
    },
    Built {
        name: "33 lines for 32 rules",
        header: Text::Forms {
            forms: 32,
            rules: 32,
            lines: 32,
        },
        table: Text::Rules {
            rules: 32,
            lines: 33,
            last: b"",
        },
        answer: Err(Refused(12, 1034)),
    },
    Built {
        name: "the last of 32 rules broken",
        header: Text::Forms {
            forms: 32,
            rules: 32,
            lines: 32,
        },
        table: Text::Rules {
            rules: 32,
            lines: 31,
            last: b"rule,31\n",
        },
        answer: Err(Refused(11, 1033)),
    },
    Built {
        name: "the last of 32 forms without a rule",
        header: Text::Forms {
            forms: 32,
            rules: 31,
            lines: 32,
        },
        table: Text::Rules {
            rules: 31,
            lines: 31,
            last: b"",
        },
        answer: Err(Refused(16, 33)),
    },
    Built {
        name: "the shape of the twelfth rule",
        header: Text::Forms {
            forms: 12,
            rules: 12,
            lines: 12,
        },
        table: Text::Rules {
            rules: 12,
            lines: 11,
            last: b"rule,11,1,1,75,0,0,0\n",
        },
        answer: Err(Refused(13, 1013)),
    },
    Built {
        name: "the variables of the twelfth rule",
        header: Text::Forms {
            forms: 12,
            rules: 12,
            lines: 12,
        },
        table: Text::Rules {
            rules: 12,
            lines: 11,
            last: b"rule,11,1,2,75,0,33,1,2,0\n",
        },
        answer: Err(Refused(14, 1013)),
    },
    Built {
        name: "the twelfth rule overlaps the first",
        header: Text::Forms {
            forms: 12,
            rules: 12,
            lines: 12,
        },
        table: Text::Rules {
            rules: 12,
            lines: 11,
            last: b"rule,11,1,1,64,0,38,0\n",
        },
        answer: Err(Refused(15, 1013)),
    },
    Built {
        name: "the twelfth form without a rule",
        header: Text::Forms {
            forms: 12,
            rules: 11,
            lines: 12,
        },
        table: Text::Rules {
            rules: 11,
            lines: 11,
            last: b"",
        },
        answer: Err(Refused(16, 13)),
    },
];

// Long lines and long texts.
pub const LENGTHS: &[Built] = &[
    Built {
        name: "64 right words",
        header: Text::Plain(HEADER),
        table: Text::Deep { words: 64 },
        answer: Ok(Accepted(1, 1, 1)),
    },
    Built {
        name: "65 right words",
        header: Text::Plain(HEADER),
        table: Text::Deep { words: 65 },
        answer: Err(Refused(11, 1002)),
    },
    Built {
        name: "a header of 16,384 bytes",
        header: Text::Filled {
            front: HEADER,
            size: 16_384,
        },
        table: Text::Plain(TABLE),
        answer: Err(Refused(12, 3)),
    },
    Built {
        name: "a header of 16,385 bytes",
        header: Text::Filled {
            front: HEADER,
            size: 16_385,
        },
        table: Text::Plain(TABLE),
        answer: Err(Refused(10, 0)),
    },
    Built {
        name: "a table of 16,384 bytes",
        header: Text::Plain(HEADER),
        table: Text::Filled {
            front: TABLE,
            size: 16_384,
        },
        answer: Err(Refused(12, 1003)),
    },
    Built {
        name: "a table of 16,385 bytes",
        header: Text::Plain(HEADER),
        table: Text::Filled {
            front: TABLE,
            size: 16_385,
        },
        answer: Err(Refused(10, 0)),
    },
    Built {
        name: "a line of 16,384 bytes",
        header: Text::Filled {
            front: b"head,1,1,",
            size: 16_384,
        },
        table: Text::Plain(TABLE),
        answer: Err(Refused(11, 1)),
    },
    Built {
        name: "both texts too long",
        header: Text::Filled {
            front: HEADER,
            size: 16_385,
        },
        table: Text::Filled {
            front: TABLE,
            size: 20_000,
        },
        answer: Err(Refused(10, 0)),
    },
    Built {
        name: "a header too long and no table",
        header: Text::Filled {
            front: HEADER,
            size: 16_385,
        },
        table: Text::Plain(b""),
        answer: Err(Refused(10, 0)),
    },
    Built {
        name: "a broken header and a table too long",
        header: Text::Plain(b"x"),
        table: Text::Filled {
            front: TABLE,
            size: 16_385,
        },
        answer: Err(Refused(10, 0)),
    },
];
