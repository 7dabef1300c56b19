// HDLC frames of the P2 link (document 01, "The frame"): received ones read, an answer for every byte slice. specs/ says what
// is read, and what a reply is, which the crate hdlc_write writes; proofs/ has the laws for callers.
#![tactic(auto)]

mod read;
mod tests;

use model::Client;
pub use read::read_frame;
pub use tests::{number_of, place_of};

// The tests of a received frame, in the order of document 01: eight of refusal 4, one of 5, one of 8, eight of 9.
#[derive(Clone, Copy)]
pub enum FrameTest {
    ShortFrame,
    FlagMissing,
    FrameType,
    LengthMismatch,
    LengthEightOrNine,
    WrongFcs,
    WrongHcs,
    EvenAddress,
    FrmrReceived,
    OverLength,
    SegmentBit,
    PfClear,
    WrongDestination,
    WrongSource,
    UnknownControl,
    LinkDownWithInformation,
    ShortInformation,
    WrongLlc,
}

// Addresses and control as they were received. A reply exchanges the addresses, and an FRMR repeats the control.
#[derive(Clone, Copy)]
pub struct Head {
    pub destination: u8,
    pub source: u8,
    pub control: u8,
}

// What a received frame is.
#[derive(Clone, Copy)]
pub enum Frame {
    // Refused by a test, and nothing goes out.
    Unanswered(FrameTest),
    // Refused by a test, and FRMR goes out.
    Rejected(FrameTest, Head),
    // A link is to come up; whether the frame has information.
    LinkUp {
        client: Client,
        head: Head,
        information: bool,
    },
    // A link is to go down.
    LinkDown {
        client: Client,
        head: Head,
    },
    // An APDU stands in the frame from `start` up to `end`.
    Apdu {
        client: Client,
        head: Head,
        start: usize,
        end: usize,
    },
}
