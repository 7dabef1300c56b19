// Envelopes, opened and closed, challenge proofs, and the window of counters. The fields after the name are bytes, key, AK and
// title, and then
//   O: of a frame: the tag of the APDU in it, its first place and its end. It is opened
//   W: the same, and a counter that was accepted: the number of its refusal, 0 where it is admitted
//   E: of a text: tag, place and counter of the envelope that is closed around it
//   Z: of what stands before the meter's proof: tag and place of the envelope, counters accepted and sent, challenge
//   M: of nothing: challenge and counter of a proof that is made
//   K: of a proof: challenge, accepted counter and that of its envelope: whether it is right
//   B has two counters after its name: whether the second lies in the window after the first
ghost use Rattle.std.specs.Prelude.{◌<◌, ◌≤◌, length};

use crate::written::{written, yes_or_no};
use envelope::{LONGEST_APDU, Opening, Unadmitted};
use material::ReadyKeys;
use model::Counters;
use std::io;
use text::{Hex, array, between, byte, first, number};

pub fn open(printer: &impl Print, s: &[u8], frame: &[u8]) -> io::Result<()> {
    let mut out = [0u8; LONGEST_APDU];
    let Some(Opening { counter, size }) = opened(s, apdu_in(s, frame), &mut out) else {
        return print!(printer; "does not open");
    };
    print!(printer; "counter {counter}, {}", Hex(first(&out, size)))
}

// Whether an APDU opens.
pub fn is_opened(s: &[u8], apdu: &[u8]) -> bool {
    opened(s, apdu, &mut [0u8; LONGEST_APDU]).is_some()
}

fn opened(s: &[u8], apdu: &[u8], out: &mut [u8; LONGEST_APDU]) -> Option<Opening> {
    envelope::open_envelope(keys(s), title(s), byte(s, 6), apdu, out)
}

pub fn admit(printer: &impl Print, s: &[u8], frame: &[u8]) -> io::Result<()> {
    let mut out = [0u8; LONGEST_APDU];
    let pair = after_counter(number(s, 9));
    let apdu = apdu_in(s, frame);
    match envelope::admit_envelope(keys(s), title(s), byte(s, 6), pair, apdu, &mut out) {
        Err(Unadmitted::Unopened) => print!(printer; "6"),
        Err(Unadmitted::OutsideWindow) => print!(printer; "7"),
        Ok(_) => print!(printer; "0"),
    }
}

fn apdu_in<'a>(s: &[u8], frame: &'a [u8]) -> &'a [u8] {
    between(frame, place(s, 7), place(s, 8))
}

pub fn close(printer: &impl Print, s: &[u8], m: &[u8]) -> io::Result<()> {
    let plain = first(m, 64);
    let n = plain.len();
    let mut room = [0u8; 512];
    wire_write::put_all(&mut room, start(s, n), plain);
    enclose(printer, s, room, number(s, 8), n)
}

// The counters are taken as the meter takes them: for the proof, and then for the envelope.
pub fn answer(printer: &impl Print, s: &[u8], m: &[u8]) -> io::Result<()> {
    let plain = first(m, 16);
    let n = plain.len() + 19;
    let proof = counters::take(Counters {
        accepted: number(s, 8),
        sent: number(s, 9),
    });
    let sealing = counters::take(proof.counters);
    let mut room = [0u8; 512];
    let value = wire_write::put_all(&mut room, start(s, n), plain);
    envelope::put_proof(
        &mut room,
        value,
        keys(s),
        title(s),
        array(s, 10),
        proof.number,
    );
    enclose(printer, s, room, sealing.number, n)
}

// Where a text of `n` bytes begins, behind the head of its envelope.
#[tactic(auto, using(wire::proofs::LengthLaws::field_size))]
fn start(s: &[u8], n: usize) -> usize
    requires { n ≤ 64 }
    ensures { result < 300 }
{
    place(s, 7) + envelope::head_size(n)
}

// The envelope around a text of `n` bytes that stands there in the room.
#[tactic(auto, using(wire::proofs::LengthLaws::field_size, envelope::proofs::CloseLaws::envelope_size))]
fn enclose(
    printer: &impl Print,
    s: &[u8],
    mut room: [u8; 512],
    counter: u32,
    n: usize,
) -> io::Result<()>
    requires { n ≤ 64 }
{
    let at = place(s, 7);
    let end = envelope::close_envelope(&mut room, at, keys(s), title(s), byte(s, 6), counter, n);
    print!(printer; "{}", Hex(between(&room, at, end)))
}

pub fn made(printer: &impl Print, s: &[u8]) -> io::Result<()> {
    written(printer, |out| {
        envelope::put_proof(out, 0, keys(s), title(s), array(s, 6), number(s, 7))
    })
}

pub fn tested(printer: &impl Print, s: &[u8], proof: &[u8]) -> io::Result<()> {
    let pair = after_counter(number(s, 7));
    let challenge = array(s, 6);
    let right = envelope::is_right_proof(keys(s), title(s), challenge, pair, number(s, 8), proof);
    yes_or_no(printer, right)
}

pub fn window(printer: &impl Print, s: &[u8]) -> io::Result<()> {
    let pair = after_counter(number(s, 2));
    yes_or_no(printer, counters::is_in_window(pair, number(s, 3)))
}

fn keys(s: &[u8]) -> ReadyKeys {
    material::ready_keys(array(s, 3), array(s, 4))
}

fn title(s: &[u8]) -> [u8; 8] {
    array(s, 5)
}

fn after_counter(accepted: u32) -> Counters {
    Counters { accepted, sent: 0 }
}

fn place(s: &[u8], k: usize) -> usize
    ensures { result < 256 }
{
    number(s, k) as usize % 256
}
