// The plug: every call goes to the meter and to its twin, a meter that is alike but for its values, which are all different.
// Where both answer a frame with the same number and the same bytes, nothing tells these values from those. That this holds for
// all values is not shown here but proved: demand 3, in the crates `protocol` and `p2`.
use crate::held::Held;
use crate::{Scene, play, print_line};
use meter::Meter;
use text::{bytes_in, field, print};

// By how much each value of the twin is greater.
const GREATER: u32 = 1000000;

// The longest frame, and with that the room for an answer.
const ROOM: usize = 779;

// The most bytes of a line's field.
pub const LONGEST: usize = 128;

// How many bytes of a frame stand on a line.
const WIDTH: usize = 32;

// What the number of a frame call means.
const MEANINGS: [&str; 14] = [
    "accepted",
    "silence: too little room for a reply",
    "silence: a key or the challenge is not whole",
    "silence: the meter's state is not sound",
    "silence: not a whole frame",
    "silence: the frame itself is a rejection",
    "silence: the seal is not right",
    "silence: the counter's step is not 1 to 180",
    "refused: the frame is too long",
    "refused: the frame is bad",
    "refused: there is no link",
    "refused: the association is not accepted",
    "refused: malformed, unknown, or not now",
    "refused: the read or the action is denied",
];

// The answer to a frame: its number, and the bytes that are sent.
#[derive(Clone, Copy)]
pub struct Answer {
    pub number: u8,
    pub sent: Held<ROOM>,
}

impl Answer {
    pub fn none() -> Answer {
        Answer {
            number: 0,
            sent: Held::none(),
        }
    }

    fn is_alike(&self, other: &Answer) -> bool {
        self.number == other.number && self.sent.bytes() == other.sent.bytes()
    }
}

// A call of the owner, made on both. One that is refused, or cannot be read, is told at once.
pub fn called(printer: &impl Print, s: &mut Scene, l: &[u8]) {
    let is_first = owned(&mut s.meter, l, 0);
    let is_second = owned(&mut s.twin, l, GREATER);
    if !(is_first && is_second) {
        print(printer, b"   A call of the owner was refused: ");
        print_line(printer, l);
        s.accepted = false;
    }
}

// A call of the owner on one of the two, and whether it was accepted.
fn owned(meter: &mut Meter, l: &[u8], extra: u32) -> bool {
    let Ok(done) = script_calls::owned(*meter, l, extra) else {
        return false;
    };
    *meter = done.meter;
    done.refusal == 0
}

// A frame is put to both, and a line tells what came of it.
pub fn asked(printer: &impl Print, s: &mut Scene, l: &[u8]) {
    let mut room = [0u8; LONGEST];
    let frame = bytes_in(l, 2, &mut room);
    let challenge = s.challenge;
    let answer = put(&mut s.meter, challenge, frame);
    let other = put(&mut s.twin, challenge, frame);
    let alike = answer.is_alike(&other);
    s.answer = answer;
    s.told = s.told || !alike;
    print_answer(printer, field(l, 1), answer.number, alike);
    if s.shown {
        print_frames(printer, frame, answer.sent.bytes());
    }
}

// The frame call, with what the owner lends.
fn put(meter: &mut Meter, challenge: [u8; 8], frame: &[u8]) -> Answer {
    let mut room = [0u8; ROOM];
    let done = script_calls::receive(
        *meter,
        frame,
        &play::GUK,
        &play::AK,
        &challenge,
        ROOM,
        &mut room,
    );
    *meter = done.meter;
    Answer {
        number: done.refusal,
        sent: Held::new(room, done.count),
    }
}

// What was asked, what the number of a frame call means, and whether the answer tells of values. What cannot be written is lost.
fn print_answer(printer: &impl Print, asked: &[u8], number: u8, alike: bool) {
    print(printer, asked);
    if let Some(meaning) = MEANINGS.get(usize::from(number)) {
        let _ = print!(printer; "{number:>3}  {meaning:<46}");
    }
    print(printer, if alike { b"nothing\n" } else { b"something\n" });
}

// A frame and its answer.
fn print_frames(printer: &impl Print, frame: &[u8], sent: &[u8]) {
    print(printer, b"     asked   ");
    print_bytes(printer, frame);
    print(printer, b"\n     answer  ");
    if sent.is_empty() {
        print(printer, b" none");
    }
    print_bytes(printer, sent);
    print(printer, b"\n");
}

// Bytes, 32 on a line, each after a space.
fn print_bytes(printer: &impl Print, s: &[u8]) {
    for (i, byte) in s.iter().enumerate() {
        if i > 0 && i % WIDTH == 0 {
            print(printer, b"\n             ");
        }
        let _ = print!(printer; " {byte:02X}");
    }
}
