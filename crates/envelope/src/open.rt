// Opening: the shape, then the GCM tag, then, where it is asked for, the counter. The cipher text stays where it was received:
// GCM is lent that part of the APDU itself. Answers for every slice; nothing here has a `requires`.
ghost use Rattle.std.specs.Prelude.{◌≡◌};
ghost use Rattle.material.specs.Material.{keys_of};
ghost use Rattle.envelope.specs.Opening.{AdmittedInto, opened, OpenedInto, shape_from, shape_of};

use crate::{LONGEST_APDU, Opening, Shape, Unadmitted};
use material::{ReadyKeys, associated_data, nonce};
use model::Counters;

// Opens the APDU, which is to have this tag, into `out`; where it does not open, `out` stays as it is. An APDU has no more
// bytes than `out`, and its text has fewer: no text that opens is too long for it.
pub fn open_envelope(
    keys: ReadyKeys,
    title: [u8; 8],
    tag: u8,
    apdu: &[u8],
    out: &mut [u8; LONGEST_APDU],
) -> Option<Opening>
    ensures { OpenedInto (opened (keys_of keys) title tag apdu.now) out.old out.new result }
{
    let shape = read_shape(tag, apdu)?;
    let (start, end) = (shape.text, shape.tag);
    let n = nonce(title, shape.counter);
    let data = associated_data(keys);
    if !gcm::open_into(keys.key, n, &data, &apdu[start..end], &apdu[end..], out) {
        return None;
    }
    Some(Opening {
        counter: shape.counter,
        size: end - start,
    })
}

// The same, and then the counter held against the window of the pair.
pub fn admit_envelope(
    keys: ReadyKeys,
    title: [u8; 8],
    tag: u8,
    pair: Counters,
    apdu: &[u8],
    out: &mut [u8; LONGEST_APDU],
) -> Result<Opening, Unadmitted>
    ensures { AdmittedInto pair.accepted (opened (keys_of keys) title tag apdu.now) out.old out.new result }
{
    let Some(opening) = open_envelope(keys, title, tag, apdu, out) else {
        return Err(Unadmitted::Unopened);
    };
    if counters::is_in_window(pair, opening.counter) {
        return Ok(opening);
    }
    Err(Unadmitted::OutsideWindow)
}

// The counter of an envelope with this tag, and the places of its cipher text and GCM tag; none where the bytes are not of
// that shape.
#[tactic(auto, using(wire::proofs::LengthLaws::length_within), unfolding(crate::specs::Opening::shape_of, crate::specs::Opening::longest_apdu, model::specs::Limits::greatest_apdu, model::specs::Limits::longest_received))]
pub fn read_shape(tag: u8, apdu: &[u8]) -> Option<Shape>
    ensures { result ≡ shape_of tag apdu.now }
{
    if LONGEST_APDU < apdu.len() {
        return None;
    }
    let a = wire::expect_at(apdu, 0, &[tag])?;
    let (size, b) = wire::length_at(apdu, a)?;
    if b + (size as usize) != apdu.len() {
        return None;
    }
    read_counter(apdu, b)
}

// The same from the security control on.
#[tactic(auto, unfolding(crate::specs::Opening::shape_from))]
fn read_counter(apdu: &[u8], at: usize) -> Option<Shape>
    ensures { result ≡ shape_from apdu.now at }
{
    let all = apdu.len();
    let c = wire::expect_at(apdu, at, b"\x30")?;
    let (counter, text) = wire::number_at::<4>(apdu, c)?;
    if all - text < 12 {
        return None;
    }
    Some(Shape {
        counter,
        text,
        tag: all - 12,
    })
}
