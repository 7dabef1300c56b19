// The data of attributes, written into the reply buffer from the values they are made of: a byte for the kind of each, then
// its bytes. A writer requires room for its bytes; which data a request comes to is not decided here.
#![tactic(auto)]

mod rows;

ghost use Rattle.std.specs.Prelude.{◌∷◌, ◌+◌, ◌<◌, ◌≤◌, drop, length, take};
ghost use Rattle.wire.specs.Wrote.{Wrote, WroteArray};
ghost use Rattle.model.specs.Clocks.{clock_data};
ghost use Rattle.model.specs.Objects.{name_data, scaler_unit, unsigned16, unsigned32};

use model::{Clock, Name};
pub use rows::put_rows;

pub fn put_name(out: &mut [u8], at: usize, name: Name) -> usize
    requires { at + 8 ≤ length out.old }
    ensures { Wrote out.old at out.new result (name_data name) }
{
    put_octets(out, at, &name.bytes)
}

pub fn put_clock(out: &mut [u8], at: usize, clock: Clock) -> usize
    requires { at + 14 ≤ length out.old }
    ensures { WroteArray 14 out.old at out.new result (clock_data clock) }
{
    put_octets(out, at, &clock.bytes)
}

pub fn put_time(out: &mut [u8], at: usize, clock: Clock) -> usize
    requires { at + 6 ≤ length out.old }
    ensures { Wrote out.old at out.new result (0x09 ∷ 0x04 ∷ take 4 (drop 5 clock.bytes)) }
{
    put_octets(out, at, &clock.bytes[5..9])
}

pub fn put_date(out: &mut [u8], at: usize, clock: Clock) -> usize
    requires { at + 7 ≤ length out.old }
    ensures { Wrote out.old at out.new result (0x09 ∷ 0x05 ∷ take 5 clock.bytes) }
{
    put_octets(out, at, &clock.bytes[..5])
}

// An octet string of fewer than 128 bytes.
fn put_octets(out: &mut [u8], at: usize, s: &[u8]) -> usize
    requires { (length s.now < 128) × (at + 2 + length s.now ≤ length out.old) }
    ensures { Wrote out.old at out.new result (0x09 ∷ length s.now ∷ s.now) }
{
    let a = wire_write::put(out, at, 0x09);
    let b = wire_write::put(out, a, s.len() as u8);
    wire_write::put_all(out, b, s)
}

// The two unsigned numbers. One function over the width would take the tag beside it, and a caller could pair them wrongly.
pub fn put_unsigned16(out: &mut [u8], at: usize, n: u16) -> usize
    requires { at + 3 ≤ length out.old }
    ensures { Wrote out.old at out.new result (unsigned16 n) }
{
    let a = wire_write::put(out, at, 0x12);
    wire_write::put_number::<2>(out, a, n as u32)
}

pub fn put_unsigned32(out: &mut [u8], at: usize, n: u32) -> usize
    requires { at + 5 ≤ length out.old }
    ensures { Wrote out.old at out.new result (unsigned32 n) }
{
    let a = wire_write::put(out, at, 0x06);
    wire_write::put_number::<4>(out, a, n)
}

pub fn put_scaler_unit(out: &mut [u8], at: usize, scaler: u8, unit: u8) -> usize
    requires { at + 6 ≤ length out.old }
    ensures { Wrote out.old at out.new result (scaler_unit scaler unit) }
{
    let a = wire_write::put_all(out, at, b"\x02\x02\x0F");
    let b = wire_write::put(out, a, scaler);
    let c = wire_write::put(out, b, 0x16);
    wire_write::put(out, c, unit)
}
