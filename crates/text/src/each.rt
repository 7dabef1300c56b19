// The lines of a text, one after another and without their ends. The last may do without an end. Of an input, each answered.
ghost use Rattle.std.specs.Prelude.{◌≡◌, length, MatchOption};
ghost use Rattle.std.specs.Iterator.{at_most};
ghost use Rattle.text.specs.Lines.{IsFirstLine};

use crate::printing::{print, print_name};
use std::io::Result;

// For each line of an input: its name, what it comes to, and a line end. What cannot be written is lost.
pub fn answer_lines<P: Print, F: Fn(&[u8]) -> Result<()>>(printer: &P, input: &[u8], outcome: F)
    requires { F.IsAlwaysCallable outcome }
{
    for line in each_line(input) {
        print_name(printer, line);
        let _ = outcome(line);
        print(printer, b"\n");
    }
}

pub fn each_line(text: &[u8]) -> EachLine<'_>
    ensures { result.left.now ≡ text.now }
{
    EachLine { left: text }
}

#[derive(Drop)]
pub struct EachLine<'a> {
    pub left: &'a [u8],
}

impl<'a> Iterator for EachLine<'a> {
    type Item = &'a [u8];

    ghost next_gives = { λ s r t. MatchOption r ((length s.left.now ≡ 0) × (length t.left.now ≡ 0)) (λ l. IsFirstLine s.left.now l.now t.left.now) };

    ghost remaining = { λ s. at_most (length s.left.now) };

    fn next(&mut self) -> Option<&'a [u8]> {
        if self.left.is_empty() {
            return None;
        }
        let end = self.left.iter().position(|b| *b == b'\n');
        let (line, rest) = self.left.split_at(end.unwrap_or(self.left.len()));
        self.left = rest.get(1..).unwrap_or(&[]);
        Some(line)
    }
}
