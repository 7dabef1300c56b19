// How a client comes in: its AARQ, and, of one that ciphers, its answer to the challenge. Both are the line's own answers: no
// register, row or clock has a part in them.
#![tactic(auto)]

mod aarq;
mod challenge;

pub use aarq::associate;
pub use challenge::hear_ciphered;
