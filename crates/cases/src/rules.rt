// The lines of rules: their numbers, and how many words they have.
use crate::case::{Accepted, Case, HEADER, Refused, TWO_RULES};

pub const CASES: &[Case<'static>] = &[
    Case {
        name: "rules numbered from 1",
        header: HEADER,
        table: b"table,1,1\nrule,1,3,1,64,2,2,0,2,1,38,0\n",
        answer: Err(Refused(11, 1002)),
    },
    Case {
        name: "a rule's number left out",
        header: TWO_RULES,
        table: b"table,1,2\nrule,0,3,1,64,2,0,0,2,1,38,0\nrule,2,3,1,64,2,0,1,2,1,38,0\n",
        answer: Err(Refused(11, 1003)),
    },
    Case {
        name: "a rule's number twice",
        header: TWO_RULES,
        table: b"table,1,2\nrule,0,3,1,64,2,0,0,2,1,38,0\nrule,0,3,1,64,2,0,1,2,1,38,0\n",
        answer: Err(Refused(11, 1003)),
    },
    Case {
        name: "a rule's line without words",
        header: HEADER,
        table: b"table,1,1\nrule,0,3,1\n",
        answer: Err(Refused(11, 1002)),
    },
    Case {
        name: "a rule's line of one number",
        header: HEADER,
        table: b"table,1,1\nrule,0\n",
        answer: Err(Refused(11, 1002)),
    },
    Case {
        name: "no left word",
        header: HEADER,
        table: b"table,1,1\nrule,0,0,1,38,0\n",
        answer: Err(Refused(11, 1002)),
    },
    Case {
        name: "10 left words",
        header: b"head,1,1,1\nform,64,8\n",
        table: b"table,1,1\nrule,0,10,1,64,8,2,0,2,1,2,2,2,3,2,4,2,5,2,6,2,7,0,0,38,0\n",
        answer: Err(Refused(11, 1002)),
    },
    Case {
        name: "no right word",
        header: HEADER,
        table: b"table,1,1\nrule,0,3,0,64,2,2,0,2,1\n",
        answer: Err(Refused(11, 1002)),
    },
    Case {
        name: "a word too few",
        header: HEADER,
        table: b"table,1,1\nrule,0,3,1,64,2,2,0,2,1\n",
        answer: Err(Refused(11, 1002)),
    },
    Case {
        name: "a word too many",
        header: HEADER,
        table: b"table,1,1\nrule,0,3,1,64,2,2,0,2,1,38,0,38,0\n",
        answer: Err(Refused(11, 1002)),
    },
    Case {
        name: "half a word too few",
        header: HEADER,
        table: b"table,1,1\nrule,0,3,1,64,2,2,0,2,1,38\n",
        answer: Err(Refused(11, 1002)),
    },
    Case {
        name: "half a word too many",
        header: HEADER,
        table: b"table,1,1\nrule,0,3,1,64,2,2,0,2,1,38,0,0\n",
        answer: Err(Refused(11, 1002)),
    },
    Case {
        name: "an empty payload",
        header: HEADER,
        table: b"table,1,1\nrule,0,3,1,64,2,2,0,2,,38,0\n",
        answer: Err(Refused(11, 1002)),
    },
    Case {
        name: "a letter for a payload",
        header: HEADER,
        table: b"table,1,1\nrule,0,3,1,64,2,2,0,2,b,38,0\n",
        answer: Err(Refused(11, 1002)),
    },
    // it is in the range of a label, and no form of a lower layer
    Case {
        name: "the label 255 in a word",
        header: HEADER,
        table: b"table,1,1\nrule,0,3,1,64,2,2,0,2,1,255,0\n",
        answer: Err(Refused(13, 1002)),
    },
    Case {
        name: "the label 256 in a word",
        header: HEADER,
        table: b"table,1,1\nrule,0,3,1,64,2,2,0,2,1,256,0\n",
        answer: Err(Refused(11, 1002)),
    },
    Case {
        name: "the label 256 on a left side",
        header: HEADER,
        table: b"table,1,1\nrule,0,3,1,64,2,256,0,2,1,38,0\n",
        answer: Err(Refused(11, 1002)),
    },
    Case {
        name: "two rules",
        header: TWO_RULES,
        table: b"table,1,2\nrule,0,3,1,64,2,0,0,2,1,38,0\nrule,1,3,1,64,2,0,1,2,1,38,0\n",
        answer: Ok(Accepted(1, 1, 2)),
    },
    Case {
        name: "a word moved from the left side to the right",
        header: HEADER,
        table: b"table,1,1\nrule,0,2,2,64,2,2,0,2,1,38,0\n",
        answer: Err(Refused(13, 1002)),
    },
];
