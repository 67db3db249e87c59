// Loads that are refused, worked out by hand from the rules.
use crate::case::Load;
use languages::refusal::Refusal;

pub const LOGIC: &[Load] = &[
    Load {
        name: "no words",
        words: "",
        refusal: Refusal::NoTerm { layer: 0, place: 0 },
    },
    Load {
        name: "two terms",
        words: "0:1 0:2",
        refusal: Refusal::NoTerm { layer: 0, place: 1 },
    },
    Load {
        name: "a term that ends early",
        words: "21:2 0:1",
        refusal: Refusal::NoTerm { layer: 0, place: 2 },
    },
    Load {
        name: "a variable",
        words: "17:1 2:0",
        refusal: Refusal::NoTerm { layer: 0, place: 1 },
    },
    Load {
        name: "a form with the wrong count",
        words: "17:2 0:1 0:2",
        refusal: Refusal::NoSuchForm { place: 0 },
    },
    Load {
        name: "a form of the other language",
        words: "17:1 33:1 0:1",
        refusal: Refusal::NoSuchForm { place: 1 },
    },
    Load {
        name: "the broken end comes before the form that is lacking",
        words: "33:1 17:1",
        refusal: Refusal::NoTerm { layer: 0, place: 2 },
    },
    Load {
        name: "a form that is lacking inside marks",
        words: "3:1 4:65537 99:0 99:0",
        refusal: Refusal::NoSuchForm { place: 3 },
    },
    Load {
        name: "the first of two forms that are lacking",
        words: "21:2 17:1 96:0 97:0",
        refusal: Refusal::NoSuchForm { place: 2 },
    },
];

pub const SEQUENCE: &[Load] = &[
    Load {
        name: "a form with the wrong count, and one child only",
        words: "33:2 0:1",
        refusal: Refusal::NoTerm { layer: 0, place: 2 },
    },
    Load {
        name: "a form with the wrong count",
        words: "33:2 0:1 0:2",
        refusal: Refusal::NoSuchForm { place: 0 },
    },
    Load {
        name: "a form of the other language",
        words: "32:2 38:0 16:1 0:1",
        refusal: Refusal::NoSuchForm { place: 2 },
    },
    Load {
        name: "a label that is not used",
        words: "37:0",
        refusal: Refusal::NoSuchForm { place: 0 },
    },
    Load {
        name: "a mark of layer 7",
        words: "3:7 38:0",
        refusal: Refusal::NoTerm { layer: 0, place: 0 },
    },
    Load {
        name: "a mark with rule 32",
        words: "4:73728 38:0",
        refusal: Refusal::NoTerm { layer: 0, place: 0 },
    },
];
