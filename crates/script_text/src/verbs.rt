// The verb that a line begins with. No verb begins another, so the first that stands there whole is the one. Where none does,
// the line is wrong behind the longest beginning that it shares with a verb.
use crate::fields::{Fields, Unread};

#[derive(Clone, Copy, Debug, PartialEq, Eq)]
pub enum Verb {
    New,
    Registers,
    Value,
    Columns,
    Period,
    Tick,
    P5,
    Power,
    Frame,
    Image,
    Dump,
    Explain,
}

// Each verb as it is written.
const WRITTEN: [(&str, Verb); 12] = [
    ("new", Verb::New),
    ("registers", Verb::Registers),
    ("value", Verb::Value),
    ("columns", Verb::Columns),
    ("period", Verb::Period),
    ("tick", Verb::Tick),
    ("p5", Verb::P5),
    ("power", Verb::Power),
    ("frame", Verb::Frame),
    ("image", Verb::Image),
    ("dump", Verb::Dump),
    ("explain", Verb::Explain),
];

impl Fields<'_> {
    // The verb, after which the line goes on.
    pub fn verb(&mut self) -> Result<Verb, Unread> {
        let mut longest = 0;
        for (word, verb) in WRITTEN {
            let n = shared(self.rest(), word.as_bytes());
            if n == word.len() {
                self.skip(n);
                return Ok(verb);
            }
            longest = longest.max(n);
        }
        self.skip(longest);
        Err(self.unread())
    }
}

// How many characters of a word a line begins with.
fn shared(line: &[u8], word: &[u8]) -> usize {
    line.iter().zip(word).take_while(|(a, b)| a == b).count()
}
