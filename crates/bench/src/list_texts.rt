// The two texts of the longest kind of list: 32 rules, each of 9 left and 64 right words.
use std::alloc::{AllocError, Global};

const RULES: u32 = 32;

pub const HEADER: &str = "head,1,1,32\nform,64,8\n";

// A form over seven forms and an atom: 64 words, 8 of them forms, 7 variables.
const RIGHT: &str = ",32,8\
    ,32,8,2,0,2,1,2,2,2,3,2,4,2,5,2,6,0,7\
    ,32,8,0,0,0,1,0,2,0,3,0,4,0,5,0,6,0,7\
    ,32,8,0,0,0,1,0,2,0,3,0,4,0,5,0,6,0,7\
    ,32,8,0,0,0,1,0,2,0,3,0,4,0,5,0,6,0,7\
    ,32,8,0,0,0,1,0,2,0,3,0,4,0,5,0,6,0,7\
    ,32,8,0,0,0,1,0,2,0,3,0,4,0,5,0,6,0,7\
    ,32,7,0,0,0,1,0,2,0,3,0,4,0,5,0,6\
    ,0,9\n";

// The table. The left sides differ in their last argument only, so that each pair is looked through to its end.
pub fn table(heap: Global) -> Result<String, AllocError> {
    let mut text = format!(in heap; "table,1,{RULES}\n")?;
    for i in 0..RULES {
        let left = format!(in heap; "rule,{i},9,64,64,8,2,0,2,1,2,2,2,3,2,4,2,5,2,6,0,{i}")?;
        text.push_str(left.as_str())?;
        text.push_str(RIGHT)?;
    }
    Ok(text)
}
