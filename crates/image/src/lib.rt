// The image of a meter: every field of the struct in a fixed byte layout, behind a version byte. What is read is refused by
// its length, its version, or a byte that no meter has; a meter that is read need not be sound. docs/IMAGE.md has the places;
// image_write writes an image.
#![tactic(auto)]

mod check;
mod lists;
mod part;
mod read;

ghost use Rattle.std.specs.Prelude.{◌≡◌};
ghost use Rattle.image.specs.Image.{blank_meter, fault_number, meter_in, read_image, status_of};

use check::Tested;
pub use lists::{are_names, are_registers, names_in, registers_in};
use meter::Meter;
pub use part::Part;
use part::Readable;

// How many bytes an image has, and the first of them.
pub const SIZE: usize = 1766;

pub const VERSION: u8 = 2;

// Why bytes are no whole image, by the first test that they fail.
#[derive(Clone, Copy, PartialEq, Eq)]
pub enum ImageFault {
    WrongLength,
    WrongVersion,
    // a flag that is neither 0 nor 1; a phase, a transfer's progress or its kind above 2
    NoImage,
}

impl ImageFault {
    // The number by which a call refuses such bytes. Document 01 knows the last alone: a state that is not sound.
    pub fn number(self) -> u8
        ensures { result ≡ fault_number self }
    {
        match self {
            ImageFault::WrongLength => 101,
            ImageFault::WrongVersion => 102,
            ImageFault::NoImage => 3,
        }
    }
}

// Reads a meter from its image.
pub fn read_image(s: &[u8]) -> Result<Meter, ImageFault>
    ensures { result ≡ read_image s.now }
{
    status_of(s)?;
    Ok(meter_in(s))
}

// What bytes come to as an image.
pub fn status_of(s: &[u8]) -> Result<(), ImageFault>
    ensures { result ≡ status_of s.now }
{
    if s.len() != SIZE {
        return Err(ImageFault::WrongLength);
    }
    if s[0] != VERSION {
        return Err(ImageFault::WrongVersion);
    }
    if !Meter::is_taken(s, 1) {
        return Err(ImageFault::NoImage);
    }
    Ok(())
}

// The meter in an image, for who knows that it is whole; a blank one where the bytes have another length than an image.
pub fn meter_in(s: &[u8]) -> Meter
    ensures { result ≡ meter_in s.now }
{
    if s.len() != SIZE {
        return blank_meter();
    }
    Meter::read_at(s, 1)
}

#[inline(never)]
fn blank_meter() -> Meter
    ensures { result ≡ blank_meter }
{
    Meter::read_at(&[0; SIZE - 1], 0)
}
