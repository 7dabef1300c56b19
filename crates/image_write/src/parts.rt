// The parts of a meter, written: each from a place on that has room for it.
ghost use Rattle.std.specs.Prelude.{◌+◌, ◌*◌, ◌≤◌, length};
ghost use Rattle.wire.specs.Wrote.{WroteArray};
ghost use Rattle.image.specs.Codec.{many};
ghost use Rattle.image.specs.Layout.{held_part};
ghost use Rattle.image_write.specs.Writing.{Put};

use body::BodyState;
use image::Part;
use line::{CipherParty, LineState, Party, Phase};
use meter::Meter;
use model::{Clock, Counters, Name, Register};
use picks::{Picking, PickingKind, Progress, Transfer};
use store::{Columns, Held, Registers, Row, Rows};

pub trait Written: Part {
    // The place after the part is given.
    fn put(&self, out: &mut [u8], at: usize) -> usize
        requires { at + Self.SIZE ≤ length out.old }
        ensures { Put Self.part self.now out.old at out.new result };
}

impl Written for Meter {
    fn put(&self, out: &mut [u8], at: usize) -> usize {
        let a = self.line.put(out, at);
        self.body.put(out, a)
    }
}

impl Written for LineState {
    fn put(&self, out: &mut [u8], at: usize) -> usize {
        let a = wire_write::put_array(out, at, &self.title);
        let b = self.verification.put(out, a);
        let c = self.han.put(out, b);
        self.p5.put(out, c)
    }
}

impl Written for Party {
    fn put(&self, out: &mut [u8], at: usize) -> usize {
        let a = wire_write::put_array(out, at, &self.title);
        let b = self.up.put(out, a);
        let c = self.phase.put(out, b);
        wire_write::put_array(out, c, &self.agreed)
    }
}

impl Written for CipherParty {
    fn put(&self, out: &mut [u8], at: usize) -> usize {
        let a = self.party.put(out, at);
        let b = wire_write::put_array(out, a, &self.key);
        let c = wire_write::put_array(out, b, &self.client);
        let d = wire_write::put_array(out, c, &self.meter);
        self.counters.put(out, d)
    }
}

impl Written for Counters {
    fn put(&self, out: &mut [u8], at: usize) -> usize {
        let a = self.accepted.put(out, at);
        self.sent.put(out, a)
    }
}

impl Written for BodyState {
    fn put(&self, out: &mut [u8], at: usize) -> usize {
        let a = wire_write::put_array(out, at, &self.device);
        let b = self.clock.put(out, a);
        let c = self.period.put(out, b);
        let d = self.number.put(out, c);
        let e = self.registers.put(out, d);
        let f = self.columns.put(out, e);
        let g = self.rows.put(out, f);
        self.transfer.put(out, g)
    }
}

impl Written for Name {
    fn put(&self, out: &mut [u8], at: usize) -> usize {
        wire_write::put_array(out, at, &self.bytes)
    }
}

impl Written for Clock {
    fn put(&self, out: &mut [u8], at: usize) -> usize {
        wire_write::put_array(out, at, &self.bytes)
    }
}

impl Written for Registers {
    fn put(&self, out: &mut [u8], at: usize) -> usize {
        put_held(out, at, self)
    }
}

impl Written for Register {
    fn put(&self, out: &mut [u8], at: usize) -> usize {
        let a = self.name.put(out, at);
        let b = self.readable.put(out, a);
        let c = self.scaler.put(out, b);
        let d = self.unit.put(out, c);
        self.value.put(out, d)
    }
}

impl Written for Columns {
    fn put(&self, out: &mut [u8], at: usize) -> usize {
        put_held(out, at, self)
    }
}

impl Written for Rows {
    fn put(&self, out: &mut [u8], at: usize) -> usize {
        put_held(out, at, self)
    }
}

impl Written for Row {
    fn put(&self, out: &mut [u8], at: usize) -> usize {
        let a = self.number.put(out, at);
        let b = self.clock.put(out, a);
        let c = self.count.put(out, b);
        put_each(out, c, &self.cells)
    }
}

impl Written for Transfer {
    fn put(&self, out: &mut [u8], at: usize) -> usize {
        let a = self.progress.put(out, at);
        let b = self.picking.put(out, a);
        self.block.put(out, b)
    }
}

impl Written for Picking {
    fn put(&self, out: &mut [u8], at: usize) -> usize {
        let a = self.kind.put(out, at);
        let b = self.after.put(out, a);
        let c = self.until.put(out, b);
        let d = self.from.put(out, c);
        self.to.put(out, d)
    }
}

impl Written for bool {
    fn put(&self, out: &mut [u8], at: usize) -> usize {
        wire_write::put(out, at, *self as u8)
    }
}

impl Written for Phase {
    fn put(&self, out: &mut [u8], at: usize) -> usize {
        wire_write::put(out, at, *self as u8)
    }
}

impl Written for Progress {
    fn put(&self, out: &mut [u8], at: usize) -> usize {
        wire_write::put(out, at, *self as u8)
    }
}

impl Written for PickingKind {
    fn put(&self, out: &mut [u8], at: usize) -> usize {
        wire_write::put(out, at, *self as u8)
    }
}

impl Written for u8 {
    fn put(&self, out: &mut [u8], at: usize) -> usize {
        wire_write::put(out, at, *self)
    }
}

impl Written for u16 {
    fn put(&self, out: &mut [u8], at: usize) -> usize {
        wire_write::put_number::<2>(out, at, *self as u32)
    }
}

impl Written for u32 {
    fn put(&self, out: &mut [u8], at: usize) -> usize {
        wire_write::put_number::<4>(out, at, *self)
    }
}

impl Written for usize {
    fn put(&self, out: &mut [u8], at: usize) -> usize {
        let a = wire_write::put_number::<4>(out, at, (*self / 256 / 256 / 256 / 256) as u32);
        wire_write::put_number::<4>(out, a, (*self % 4294967296) as u32)
    }
}

// The parts of an array, one after the other.
fn put_each<T: Written, const N: usize>(out: &mut [u8], at: usize, items: &[T; N]) -> usize
    requires { at + N * T.SIZE ≤ length out.old }
    ensures { Put (many N T.part) items.now out.old at out.new result }
{
    let mut next = at;
    for item in items {
        next = item.put(out, next);
    }
    next
}

// A count, and then each of the places.
fn put_held<T: Written, const N: usize>(out: &mut [u8], at: usize, held: &Held<T, N>) -> usize
    requires { at + 8 + N * T.SIZE ≤ length out.old }
    ensures { Put (held_part N T.part) held.now out.old at out.new result }
{
    let next = held.count.put(out, at);
    put_each(out, next, &held.items)
}
