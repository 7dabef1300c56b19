// Ciphered APDUs: envelopes opened and closed, and the proofs of the challenge (document 01, "The envelope and its counters").
// specs/Layout, specs/Opening and specs/Challenge say what each function means; keys, made ready by `material`, and titles are
// given by the caller.
#![tactic(auto)]

mod challenge;
mod close;
mod open;

pub use challenge::{is_right_proof, put_proof};
pub use close::{close_envelope, head_size};
pub use open::{admit_envelope, open_envelope, read_shape};

// The longest APDU that a frame brings: a room for any plain text has this size.
pub const LONGEST_APDU: usize = 765;

// An APDU that opened: its counter, and the size of its plain text.
#[derive(Clone, Copy)]
pub struct Opening {
    pub counter: u32,
    pub size: usize,
}

// Why an APDU is not admitted: it is no envelope, or not one sealed under these keys; or its counter lies outside its window.
#[derive(Clone, Copy)]
pub enum Unadmitted {
    Unopened,
    OutsideWindow,
}

// The counter of an envelope, and where its cipher text and its GCM tag begin.
#[derive(Clone, Copy)]
pub struct Shape {
    pub counter: u32,
    pub text: usize,
    pub tag: usize,
}
