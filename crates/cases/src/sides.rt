// The shapes of the two sides of a rule, and its variables.
use crate::case::{Accepted, Case, HEADER, Refused};

// Left sides.
pub const LEFT: &[Case<'static>] = &[
    Case {
        name: "a form that is not declared",
        header: HEADER,
        table: b"table,1,1\nrule,0,3,1,65,2,2,0,2,1,38,0\n",
        answer: Err(Refused(13, 1002)),
    },
    Case {
        name: "a core form on the left",
        header: HEADER,
        table: b"table,1,1\nrule,0,3,1,32,2,2,0,2,1,38,0\n",
        answer: Err(Refused(13, 1002)),
    },
    Case {
        name: "an atom as a left side",
        header: HEADER,
        table: b"table,1,1\nrule,0,1,1,0,0,38,0\n",
        answer: Err(Refused(13, 1002)),
    },
    Case {
        name: "a declared form with another count",
        header: HEADER,
        table: b"table,1,1\nrule,0,2,1,64,1,2,0,38,0\n",
        answer: Err(Refused(13, 1002)),
    },
    Case {
        name: "an argument too few",
        header: HEADER,
        table: b"table,1,1\nrule,0,2,1,64,2,2,0,38,0\n",
        answer: Err(Refused(13, 1002)),
    },
    Case {
        name: "an argument too many",
        header: HEADER,
        table: b"table,1,1\nrule,0,4,1,64,2,2,0,2,1,2,2,38,0\n",
        answer: Err(Refused(13, 1002)),
    },
    Case {
        name: "a form as an argument",
        header: HEADER,
        table: b"table,1,1\nrule,0,3,1,64,2,38,0,2,1,38,0\n",
        answer: Err(Refused(13, 1002)),
    },
    Case {
        name: "a form with its child as two arguments",
        header: HEADER,
        table: b"table,1,1\nrule,0,3,1,64,2,33,1,2,1,38,0\n",
        answer: Err(Refused(13, 1002)),
    },
    Case {
        name: "a body mark as an argument",
        header: HEADER,
        table: b"table,1,1\nrule,0,3,1,64,2,3,1,2,1,38,0\n",
        answer: Err(Refused(13, 1002)),
    },
    Case {
        name: "a head mark as a left side",
        header: HEADER,
        table: b"table,1,1\nrule,0,4,1,4,65536,64,2,2,0,2,1,38,0\n",
        answer: Err(Refused(13, 1002)),
    },
    Case {
        name: "label 1 as an argument",
        header: HEADER,
        table: b"table,1,1\nrule,0,3,1,64,2,1,0,2,1,38,0\n",
        answer: Err(Refused(13, 1002)),
    },
    Case {
        name: "variable 7",
        header: HEADER,
        table: b"table,1,1\nrule,0,3,2,64,2,2,0,2,7,33,1,2,7\n",
        answer: Ok(Accepted(1, 1, 1)),
    },
    Case {
        name: "variable 8 on the left",
        header: HEADER,
        table: b"table,1,1\nrule,0,3,1,64,2,2,0,2,8,38,0\n",
        answer: Err(Refused(13, 1002)),
    },
    Case {
        name: "two atoms as arguments",
        header: HEADER,
        table: b"table,1,1\nrule,0,3,1,64,2,0,16777215,0,0,38,0\n",
        answer: Ok(Accepted(1, 1, 1)),
    },
];

// Right sides.
pub const RIGHT: &[Case<'static>] = &[
    Case {
        name: "two trees",
        header: HEADER,
        table: b"table,1,1\nrule,0,3,2,64,2,2,0,2,1,38,0,38,0\n",
        answer: Err(Refused(13, 1002)),
    },
    Case {
        name: "half a tree",
        header: HEADER,
        table: b"table,1,1\nrule,0,3,2,64,2,2,0,2,1,32,2,38,0\n",
        answer: Err(Refused(13, 1002)),
    },
    Case {
        name: "a bare atom",
        header: HEADER,
        table: b"table,1,1\nrule,0,3,1,64,2,2,0,2,1,0,5\n",
        answer: Err(Refused(13, 1002)),
    },
    Case {
        name: "a bare variable",
        header: HEADER,
        table: b"table,1,1\nrule,0,3,1,64,2,2,0,2,1,2,0\n",
        answer: Err(Refused(13, 1002)),
    },
    Case {
        name: "a body mark at the root",
        header: HEADER,
        table: b"table,1,1\nrule,0,3,2,64,2,2,0,2,1,3,1,38,0\n",
        answer: Err(Refused(13, 1002)),
    },
    Case {
        name: "a body mark inside",
        header: HEADER,
        table: b"table,1,1\nrule,0,3,3,64,2,2,0,2,1,33,1,3,1,2,0\n",
        answer: Err(Refused(13, 1002)),
    },
    Case {
        name: "a head mark inside",
        header: HEADER,
        table: b"table,1,1\nrule,0,3,3,64,2,2,0,2,1,33,1,4,65536,2,0\n",
        answer: Err(Refused(13, 1002)),
    },
    Case {
        name: "label 1 inside",
        header: HEADER,
        table: b"table,1,1\nrule,0,3,2,64,2,2,0,2,1,33,1,1,0\n",
        answer: Err(Refused(13, 1002)),
    },
    Case {
        name: "label 5 inside",
        header: HEADER,
        table: b"table,1,1\nrule,0,3,2,64,2,2,0,2,1,33,1,5,0\n",
        answer: Err(Refused(13, 1002)),
    },
    Case {
        name: "label 15 at the root",
        header: HEADER,
        table: b"table,1,1\nrule,0,3,1,64,2,2,0,2,1,15,0\n",
        answer: Err(Refused(13, 1002)),
    },
    Case {
        name: "label 16 at the root",
        header: HEADER,
        table: b"table,1,1\nrule,0,3,1,64,2,2,0,2,1,16,0\n",
        answer: Ok(Accepted(1, 1, 1)),
    },
    Case {
        name: "the last label before those of layer 1",
        header: HEADER,
        table: b"table,1,1\nrule,0,3,1,64,2,2,0,2,1,63,0\n",
        answer: Ok(Accepted(1, 1, 1)),
    },
    Case {
        name: "a form of the own layer at the root",
        header: HEADER,
        table: b"table,1,1\nrule,0,3,3,64,2,2,0,2,1,64,2,2,0,2,1\n",
        answer: Err(Refused(13, 1002)),
    },
    Case {
        name: "a form of the own layer inside",
        header: HEADER,
        table: b"table,1,1\nrule,0,3,2,64,2,2,0,2,1,33,1,95,0\n",
        answer: Err(Refused(13, 1002)),
    },
    Case {
        name: "a form of a higher layer inside",
        header: HEADER,
        table: b"table,1,1\nrule,0,3,2,64,2,2,0,2,1,33,1,96,0\n",
        answer: Err(Refused(13, 1002)),
    },
    Case {
        name: "the last label of the layer below",
        header: b"head,2,1,1\nform,96,0\n",
        table: b"table,2,1\nrule,0,1,1,96,0,95,0\n",
        answer: Ok(Accepted(2, 1, 1)),
    },
    Case {
        name: "the first label of the own layer 2",
        header: b"head,2,1,1\nform,96,0\n",
        table: b"table,2,1\nrule,0,1,1,96,0,96,0\n",
        answer: Err(Refused(13, 1002)),
    },
    Case {
        name: "8 children",
        header: HEADER,
        table: b"table,1,1\nrule,0,3,9,64,2,2,0,2,1,63,8,0,0,0,1,0,2,0,3,0,4,0,5,0,6,0,7\n",
        answer: Ok(Accepted(1, 1, 1)),
    },
    Case {
        name: "9 children",
        header: HEADER,
        table: b"table,1,1\nrule,0,3,10,64,2,2,0,2,1,63,9,0,0,0,1,0,2,0,3,0,4,0,5,0,6,0,7,0,8\n",
        answer: Err(Refused(13, 1002)),
    },
    Case {
        name: "variable 8 on the right",
        header: HEADER,
        table: b"table,1,1\nrule,0,3,2,64,2,2,0,2,1,33,1,2,8\n",
        answer: Err(Refused(13, 1002)),
    },
];

// Variables.
pub const VARIABLES: &[Case<'static>] = &[
    Case {
        name: "a variable twice on the left",
        header: HEADER,
        table: b"table,1,1\nrule,0,3,1,64,2,2,0,2,0,38,0\n",
        answer: Err(Refused(14, 1002)),
    },
    Case {
        name: "a variable twice on the right",
        header: HEADER,
        table: b"table,1,1\nrule,0,3,3,64,2,2,0,2,1,32,2,2,0,2,0\n",
        answer: Err(Refused(14, 1002)),
    },
    Case {
        name: "a variable on the right alone",
        header: HEADER,
        table: b"table,1,1\nrule,0,3,2,64,2,2,0,2,1,33,1,2,2\n",
        answer: Err(Refused(14, 1002)),
    },
    Case {
        name: "an atom twice on both sides",
        header: HEADER,
        table: b"table,1,1\nrule,0,3,3,64,2,0,4,0,4,32,2,0,4,0,4\n",
        answer: Ok(Accepted(1, 1, 1)),
    },
    Case {
        name: "variables in another order on the right",
        header: HEADER,
        table: b"table,1,1\nrule,0,3,3,64,2,2,0,2,1,32,2,2,1,2,0\n",
        answer: Ok(Accepted(1, 1, 1)),
    },
    Case {
        name: "variables that are not numbered from 0",
        header: HEADER,
        table: b"table,1,1\nrule,0,3,3,64,2,2,6,2,3,32,2,2,3,2,6\n",
        answer: Ok(Accepted(1, 1, 1)),
    },
];
