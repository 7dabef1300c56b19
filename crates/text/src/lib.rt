// Text of the programs that read lines from standard input: the whole input, lines of a text, fields of a line, bytes as two
// hexadecimal digits each, parts of a slice, and printing. What a line means is its program's.
#![tactic(auto)]

mod each;
mod fields;
mod hexadecimal;
mod input;
mod parts;
mod printing;
mod room;
mod shown;

pub use each::{EachLine, answer_lines, each_line};
pub use fields::{array, byte, bytes, field, letter, number};
pub use hexadecimal::{digit, digits, pair_of};
pub use input::read_full;
pub use parts::{after, all_are, between, first};
pub use printing::{print, print_name};
pub use room::bytes_in;
pub use shown::Hex;
