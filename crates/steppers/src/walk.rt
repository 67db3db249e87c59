// Walks over the words of a term, from a word to the one behind the terms that go with it.
ghost use Rattle.steppers.specs.Walks.{StopsAt};

use terms::front::skip;

// The place of the first word that is not passed. Of each word `passed` says how many terms behind it go with it; none if it is not passed.
pub(crate) fn first_stop<F: Fn(u32) -> Option<usize>>(words: &[u32], passed: F) -> Option<usize>
    requires { F.IsAlwaysCallable passed }
    ensures { StopsAt (F.post passed) words.now result }
{
    // by hand, since each turn goes on by the size of what stands behind a word
    let mut at = 0;
    while at < words.len() {
        let Some(behind) = passed(words[at]) else {
            return Some(at);
        };
        let Ok(size) = skip(&words[at + 1..], behind) else {
            return None;
        };
        at += 1 + size;
    }
    None
}
