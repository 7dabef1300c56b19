// The image of a meter, written: whatever a meter holds, sound or not, into a buffer of the image's size. The layout is that of
// image, which reads it.
#![tactic(auto)]

mod parts;
#[cfg(test)]
mod tests;

ghost use Rattle.image_write.specs.Writing.{Writes};

use image::{SIZE, VERSION};
use meter::Meter;
use parts::Written;

// The buffer has another length than an image.
#[derive(Clone, Copy, PartialEq, Eq)]
pub struct WrongBuffer;

// Writes the image of a meter into a buffer of its size; into another nothing is written.
pub fn write_image(meter: Meter, out: &mut [u8]) -> Result<(), WrongBuffer>
    ensures { Writes meter out.old out.new result }
{
    if out.len() != SIZE {
        return Err(WrongBuffer);
    }
    let a = wire_write::put(out, 0, VERSION);
    meter.put(out, a);
    Ok(())
}
