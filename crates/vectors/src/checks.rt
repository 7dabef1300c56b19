// Checks and length fields. C: the 16-bit check of bytes, as a number. F: the same as it stands in a frame, its low byte first. L:
// the length field of a decimal number.
use crate::written::written;
use std::io;

pub fn number(printer: &impl Print, m: &[u8]) -> io::Result<()> {
    written(
        printer,
        |out| wire_write::put_number::<2>(out, 0, u32::from(fcs::check(m))),
    )
}

pub fn in_frame(printer: &impl Print, m: &[u8]) -> io::Result<()> {
    written(
        printer,
        |out| wire_write::put_u16_low_first(out, 0, fcs::check(m)),
    )
}

#[tactic(auto, using(wire::proofs::LengthLaws::field_size))]
pub fn length(printer: &impl Print, s: &[u8]) -> io::Result<()> {
    let n = text::number(s, 2) as usize % 65536;
    written(printer, |out| wire_write::put_length(out, 0, n))
}
