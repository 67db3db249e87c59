// The forms that a header declares.
use crate::case::{Accepted, Case, Refused, TABLE};

pub const CASES: &[Case<'static>] = &[
    Case {
        name: "the label before those of layer 1",
        header: b"head,1,1,1\nform,63,2\n",
        table: TABLE,
        answer: Err(Refused(11, 2)),
    },
    Case {
        name: "the last label of layer 1",
        header: b"head,1,1,1\nform,95,0\n",
        table: b"table,1,1\nrule,0,1,1,95,0,38,0\n",
        answer: Ok(Accepted(1, 1, 1)),
    },
    Case {
        name: "the label behind those of layer 1",
        header: b"head,1,1,1\nform,96,2\n",
        table: TABLE,
        answer: Err(Refused(11, 2)),
    },
    Case {
        name: "the label before those of layer 2",
        header: b"head,2,1,1\nform,95,2\n",
        table: TABLE,
        answer: Err(Refused(11, 2)),
    },
    Case {
        name: "both ends of layer 2",
        header: b"head,2,2,2\nform,96,0\nform,127,0\n",
        table: b"table,2,2\nrule,0,1,1,96,0,38,0\nrule,1,1,1,127,0,38,0\n",
        answer: Ok(Accepted(2, 2, 2)),
    },
    Case {
        name: "the label behind those of layer 2",
        header: b"head,2,1,1\nform,128,2\n",
        table: TABLE,
        answer: Err(Refused(11, 2)),
    },
    Case {
        name: "the label before those of layer 6",
        header: b"head,6,1,1\nform,223,2\n",
        table: TABLE,
        answer: Err(Refused(11, 2)),
    },
    Case {
        name: "both ends of layer 6",
        header: b"head,6,2,2\nform,224,0\nform,255,0\n",
        table: b"table,6,2\nrule,0,1,1,224,0,38,0\nrule,1,1,1,255,0,38,0\n",
        answer: Ok(Accepted(6, 2, 2)),
    },
    Case {
        name: "the label behind those of layer 6",
        header: b"head,6,1,1\nform,256,2\n",
        table: TABLE,
        answer: Err(Refused(11, 2)),
    },
    Case {
        name: "a core form",
        header: b"head,1,1,1\nform,38,0\n",
        table: TABLE,
        answer: Err(Refused(11, 2)),
    },
    Case {
        name: "a form out of order",
        header: b"head,1,2,1\nform,65,2\nform,64,2\n",
        table: TABLE,
        answer: Err(Refused(11, 3)),
    },
    Case {
        name: "two forms of one label",
        header: b"head,1,2,1\nform,64,2\nform,64,3\n",
        table: TABLE,
        answer: Err(Refused(11, 3)),
    },
    Case {
        name: "a form with 8 children",
        header: b"head,1,1,1\nform,64,8\n",
        table: b"table,1,1\nrule,0,9,1,64,8,2,0,2,1,2,2,2,3,2,4,2,5,2,6,2,7,38,0\n",
        answer: Ok(Accepted(1, 1, 1)),
    },
    Case {
        name: "a form with 9 children",
        header: b"head,1,1,1\nform,64,9\n",
        table: TABLE,
        answer: Err(Refused(11, 2)),
    },
    Case {
        name: "a form's line without a count",
        header: b"head,1,1,1\nform,64\n",
        table: TABLE,
        answer: Err(Refused(11, 2)),
    },
    Case {
        name: "a form's line with a field too many",
        header: b"head,1,1,1\nform,64,2,0\n",
        table: TABLE,
        answer: Err(Refused(11, 2)),
    },
    Case {
        name: "a broken line of two digits",
        header: b"head,1,12,1\nform,64,0\nform,65,0\nform,66,0\nform,67,0\nform,68,0\nform,69,0\nform,70,0\nform,71,0\nform,72,0\nform,73,9\n",
        table: TABLE,
        answer: Err(Refused(11, 11)),
    },
    Case {
        name: "a missing line of two digits",
        header: b"head,1,12,1\nform,64,0\nform,65,0\nform,66,0\nform,67,0\nform,68,0\nform,69,0\nform,70,0\nform,71,0\nform,72,0\nform,73,0\n",
        table: TABLE,
        answer: Err(Refused(12, 12)),
    },
];
