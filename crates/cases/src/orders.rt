// Two faults in one pair of texts, and rules that overlap or are wanting.
use crate::case::{Accepted, Case, HEADER, Refused, TABLE, TWO_RULES};

// Which of two faults is told.
pub const FIRST: &[Case<'static>] = &[
    Case {
        name: "both first lines broken",
        header: b"head\n",
        table: b"table\n",
        answer: Err(Refused(11, 1)),
    },
    Case {
        name: "a broken form before an empty table",
        header: b"head,1,1,1\nform,63,2\n",
        table: b"",
        answer: Err(Refused(11, 2)),
    },
    Case {
        name: "a missing form before a broken table",
        header: b"head,1,2,1\nform,64,2\n",
        table: b"x",
        answer: Err(Refused(12, 3)),
    },
    Case {
        name: "a form too many before a broken table",
        header: b"head,1,1,1\nform,64,2\nx",
        table: b"x",
        answer: Err(Refused(12, 3)),
    },
    Case {
        name: "a form too many before another layer",
        header: b"head,1,1,1\nform,64,2\n\n",
        table: b"table,2,1\n",
        answer: Err(Refused(12, 3)),
    },
    Case {
        name: "a broken form before a missing one",
        header: b"head,1,2,1\nform,63,2\n",
        table: TABLE,
        answer: Err(Refused(11, 2)),
    },
    Case {
        name: "a form without its line end before a missing one",
        header: b"head,1,2,1\nform,64,2",
        table: TABLE,
        answer: Err(Refused(11, 2)),
    },
    Case {
        name: "a broken form before one too many",
        header: b"head,1,1,1\nform,64,9\nform,65,2\n",
        table: TABLE,
        answer: Err(Refused(11, 2)),
    },
    Case {
        name: "a broken rule before a missing one",
        header: TWO_RULES,
        table: b"table,1,2\nrule,1\n",
        answer: Err(Refused(11, 1002)),
    },
    Case {
        name: "another layer before a broken rule",
        header: HEADER,
        table: b"table,2,1\nrule\n",
        answer: Err(Refused(12, 1001)),
    },
    Case {
        name: "a layer out of range before another number of rules",
        header: HEADER,
        table: b"table,7,2\n",
        answer: Err(Refused(11, 1001)),
    },
    Case {
        name: "a broken line before an earlier rule's shape",
        header: TWO_RULES,
        table: b"table,1,2\nrule,0,3,1,64,2,2,0,2,1,0,0\nrule,1,3,1,64,2,2,0,2,1,256,0\n",
        answer: Err(Refused(11, 1003)),
    },
    Case {
        name: "a missing line before an earlier rule's shape",
        header: TWO_RULES,
        table: b"table,1,2\nrule,0,3,1,64,2,2,0,2,1,0,0\n",
        answer: Err(Refused(12, 1003)),
    },
    Case {
        name: "a line too many before a rule's shape",
        header: HEADER,
        table: b"table,1,1\nrule,0,3,1,64,2,2,0,2,1,0,0\n\n",
        answer: Err(Refused(12, 1003)),
    },
    Case {
        name: "a rule's shape before its variables",
        header: HEADER,
        table: b"table,1,1\nrule,0,3,1,64,2,2,0,2,0,0,0\n",
        answer: Err(Refused(13, 1002)),
    },
    Case {
        name: "a rule's variables before a later rule's shape",
        header: TWO_RULES,
        table: b"table,1,2\nrule,0,3,1,64,2,2,0,2,0,38,0\nrule,1,3,1,64,2,2,0,2,1,0,0\n",
        answer: Err(Refused(14, 1002)),
    },
    Case {
        name: "a rule's shape before a later rule's variables",
        header: TWO_RULES,
        table: b"table,1,2\nrule,0,3,1,64,2,2,0,2,1,0,0\nrule,1,3,1,64,2,2,0,2,0,38,0\n",
        answer: Err(Refused(13, 1002)),
    },
    Case {
        name: "a later rule's shape before an overlap",
        header: b"head,1,1,3\nform,64,2\n",
        table: b"table,1,3\nrule,0,3,1,64,2,2,0,2,1,38,0\nrule,1,3,1,64,2,2,0,2,1,38,0\nrule,2,3,1,64,2,2,0,2,1,0,0\n",
        answer: Err(Refused(13, 1004)),
    },
    Case {
        name: "a later rule's variables before an overlap",
        header: b"head,1,1,3\nform,64,2\n",
        table: b"table,1,3\nrule,0,3,1,64,2,2,0,2,1,38,0\nrule,1,3,1,64,2,2,0,2,1,38,0\nrule,2,3,1,64,2,2,0,2,0,38,0\n",
        answer: Err(Refused(14, 1004)),
    },
    Case {
        name: "an overlap before a form without a rule",
        header: b"head,1,2,2\nform,64,2\nform,65,2\n",
        table: b"table,1,2\nrule,0,3,1,65,2,2,0,2,1,38,0\nrule,1,3,1,65,2,2,0,2,1,38,0\n",
        answer: Err(Refused(15, 1003)),
    },
];

// Rules that overlap, and forms without a rule.
pub const RULES: &[Case<'static>] = &[
    Case {
        name: "two rules of a form without arguments",
        header: b"head,1,1,2\nform,64,0\n",
        table: b"table,1,2\nrule,0,1,1,64,0,38,0\nrule,1,1,1,64,0,63,0\n",
        answer: Err(Refused(15, 1003)),
    },
    Case {
        name: "one rule twice",
        header: TWO_RULES,
        table: b"table,1,2\nrule,0,3,1,64,2,0,0,0,1,38,0\nrule,1,3,1,64,2,0,0,0,1,38,0\n",
        answer: Err(Refused(15, 1003)),
    },
    Case {
        name: "P(0, x) and P(x, 1)",
        header: TWO_RULES,
        table: b"table,1,2\nrule,0,3,1,64,2,0,0,2,0,38,0\nrule,1,3,1,64,2,2,0,0,1,38,0\n",
        answer: Err(Refused(15, 1003)),
    },
    Case {
        name: "P(0, x) and P(1, x)",
        header: TWO_RULES,
        table: b"table,1,2\nrule,0,3,1,64,2,0,0,2,0,38,0\nrule,1,3,1,64,2,0,1,2,0,38,0\n",
        answer: Ok(Accepted(1, 1, 2)),
    },
    Case {
        name: "P(x, 0) and P(x, 1)",
        header: TWO_RULES,
        table: b"table,1,2\nrule,0,3,1,64,2,2,0,0,0,38,0\nrule,1,3,1,64,2,2,0,0,1,38,0\n",
        answer: Ok(Accepted(1, 1, 2)),
    },
    Case {
        name: "P(0, 1) and P(0, x)",
        header: TWO_RULES,
        table: b"table,1,2\nrule,0,3,1,64,2,0,0,0,1,38,0\nrule,1,3,1,64,2,0,0,2,0,38,0\n",
        answer: Err(Refused(15, 1003)),
    },
    Case {
        name: "P(0, 1) and P(1, 0)",
        header: TWO_RULES,
        table: b"table,1,2\nrule,0,3,1,64,2,0,0,0,1,38,0\nrule,1,3,1,64,2,0,1,0,0,38,0\n",
        answer: Ok(Accepted(1, 1, 2)),
    },
    Case {
        name: "equal arguments of two forms",
        header: b"head,1,2,2\nform,64,2\nform,65,2\n",
        table: b"table,1,2\nrule,0,3,1,64,2,2,0,2,1,38,0\nrule,1,3,1,65,2,2,0,2,1,38,0\n",
        answer: Ok(Accepted(1, 2, 2)),
    },
    Case {
        name: "the last rule overlaps the first",
        header: b"head,1,1,3\nform,64,2\n",
        table: b"table,1,3\nrule,0,3,1,64,2,0,0,2,0,38,0\nrule,1,3,1,64,2,0,1,2,0,38,0\nrule,2,3,1,64,2,0,0,0,5,38,0\n",
        answer: Err(Refused(15, 1004)),
    },
    // rule 2 overlaps rule 1, and rule 3 overlaps rule 0
    Case {
        name: "two overlaps",
        header: b"head,1,1,4\nform,64,2\n",
        table: b"table,1,4\nrule,0,3,1,64,2,0,0,2,0,38,0\nrule,1,3,1,64,2,0,1,2,0,38,0\nrule,2,3,1,64,2,0,1,0,5,38,0\nrule,3,3,1,64,2,0,0,0,5,38,0\n",
        answer: Err(Refused(15, 1004)),
    },
    Case {
        name: "the first form without a rule",
        header: b"head,1,2,1\nform,64,2\nform,65,2\n",
        table: b"table,1,1\nrule,0,3,1,65,2,2,0,2,1,38,0\n",
        answer: Err(Refused(16, 2)),
    },
    Case {
        name: "the last form without a rule",
        header: b"head,1,2,1\nform,64,2\nform,65,2\n",
        table: b"table,1,1\nrule,0,3,1,64,2,2,0,2,1,38,0\n",
        answer: Err(Refused(16, 3)),
    },
    Case {
        name: "two forms without a rule",
        header: b"head,1,3,1\nform,64,2\nform,65,2\nform,66,2\n",
        table: b"table,1,1\nrule,0,3,1,64,2,2,0,2,1,38,0\n",
        answer: Err(Refused(16, 3)),
    },
    Case {
        name: "rules in another order than their forms",
        header: b"head,1,2,2\nform,64,2\nform,65,2\n",
        table: b"table,1,2\nrule,0,3,1,65,2,2,0,2,1,38,0\nrule,1,3,1,64,2,2,0,2,1,38,0\n",
        answer: Ok(Accepted(1, 2, 2)),
    },
];
