// Bytes in lent slices, read: an answer for every slice and every position. Numbers stand high byte first unless the name says
// otherwise, and a length in the shortest form of one to three bytes. A number comes with the position after it; there is none
// where the bytes end too early or are not of the form asked. specs/ says what reading means, and what a writer leaves, of which
// wire_write has the functions; proofs/ has the laws for callers.
#![tactic(auto)]

mod read;

pub use read::{array_at, expect_at, length_at, number_at, same, skip_at};
