// Whole reply frames, written from the start of the lent reply buffer; the bytes after a frame keep their values. Each takes
// the head of the received frame and requires the reply room, and gives the frame's length. Keys, titles, counters and texts
// are given by the caller: nothing here knows a meter. The room stays a clause of each: a slice of that length as a type of its own would
// ask more of callers, who lend any room that is long enough.
#![tactic(auto)]

mod enclosed;
mod plain;

pub use enclosed::{send_accepted_ciphered, send_denial, send_enclosed, send_proof};
pub use plain::{send_accepted_plain, send_exception, send_plain, send_rejected, send_release};

// Where the APDU of a reply begins: behind the head of its frame and LLC.
pub const APDU_AT: usize = 11;

// Where a text that `send_enclosed` is to close is written: behind the longest head of an envelope.
pub const TEXT_AT: usize = 20;
