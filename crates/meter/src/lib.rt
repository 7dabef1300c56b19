// The meter: its state, the test of soundness for every state that can be handed in, and the owner's calls. Each call takes
// the meter whole and hands the changed meter back beside the number of its refusal, or 0; it refuses an unsound meter by 3,
// then by its own number, and hands a refused meter back as it was. Beside the calls: the meter with zeros wherever it holds
// nothing; in `transfers`, what the line allows of a transfer.
#![tactic(auto)]

mod transfers;

ghost use Rattle.std.specs.Prelude.{◌≡◌};
ghost use Rattle.model.specs.Names.{blank_name, blank_register};
ghost use Rattle.model.specs.State.{new_meter};
ghost use Rattle.model.specs.Soundness.{sound};
ghost use Rattle.model.specs.Calls.{OwnerCall};
ghost use Rattle.store.specs.Lists.{held};
ghost use Rattle.meter.specs.View.{view};
ghost use Rattle.meter.specs.Canonical.{Cleared, Fresh};
ghost use Rattle.meter.specs.Promise.{Owned, PoweredUp, changed};

use body::BodyState;
use line::LineState;
use model::{Clock, Name, Register};
use store::{Columns, Registers};
pub use transfers::is_allowed;

#[derive(Clone, Copy)]
pub struct Meter {
    pub line: LineState,
    pub body: BodyState,
}

// What an owner's call hands back: the number of its refusal, or 0, and the meter. The number stays beside the meter: the form that
// document 01 names for the owner's calls has both.
#[derive(Clone, Copy)]
pub struct Changed {
    pub refusal: u8,
    pub meter: Meter,
}

// Whether a meter is sound.
#[tactic(auto, using(crate::proofs::MeterLaws::sound_is))]
pub fn is_sound(meter: Meter) -> bool
    ensures { result ≡ sound (view meter) }
{
    body::is_body_sound(meter.body)
        && line::is_line_sound(meter.line)
        && is_allowed(meter.line, meter.body.transfer)
}

impl Meter {
    // A new meter: its name and titles are taken as given, all else is empty, and there are zeros wherever it holds nothing.
    pub fn new(device: [u8; 16], title: [u8; 8], verification: [u8; 8], han: [u8; 8]) -> Meter
        ensures { Fresh (new_meter device title verification han) result }
    {
        let meter = Meter {
            line: line::new_line(title, verification, han),
            body: body::new_body(device),
        };
        meter.cleared()
    }

    // Registers are given anew; columns and rows are emptied, and a transfer that runs is ended. Refusals 3 and 16. A count above sixteen
    // can be given, and is refused: so the array and its count stand apart, here and of columns.
    pub fn give_registers(mut self, registers: [Register; 16], count: usize) -> Changed
        ensures { Owned (OwnerCall.give_registers (held blank_register count registers)) self result }
    {
        if !is_sound(self) {
            return refused(3, self);
        }
        let given = Registers {
            count,
            items: registers,
        };
        if !store::registers_accepted(given) {
            return refused(16, self);
        }
        self.body = BodyState {
            registers: given,
            columns: body::no_columns(),
            rows: body::no_rows(),
            transfer: picks::broken(self.body.transfer),
            ..self.body
        };
        done(self)
    }

    // The value of a register is set. Refusals 3 and 17.
    pub fn set_value(mut self, name: Name, value: u32) -> Changed
        ensures { Owned (OwnerCall.set_value name value) self result }
    {
        if !is_sound(self) {
            return refused(3, self);
        }
        let Some(registers) = store::assign(self.body.registers, name, value) else {
            return refused(17, self);
        };
        self.body = BodyState {
            registers,
            ..self.body
        };
        done(self)
    }

    // Columns are set by the names of given registers; rows are emptied, and a transfer that runs is ended. Refusals 3 and 18.
    pub fn set_columns(mut self, columns: [Name; 16], count: usize) -> Changed
        ensures { Owned (OwnerCall.set_columns (held blank_name count columns)) self result }
    {
        if !is_sound(self) {
            return refused(3, self);
        }
        let columns = Columns {
            count,
            items: columns,
        };
        if !store::columns_accepted(self.body.registers, columns) {
            return refused(18, self);
        }
        self.body = BodyState {
            columns,
            rows: body::no_rows(),
            transfer: picks::broken(self.body.transfer),
            ..self.body
        };
        done(self)
    }

    // The capture period is set. Refusals 3 and 15.
    pub fn set_period(mut self, period: u32) -> Changed
        ensures { Owned (OwnerCall.set_period period) self result }
    {
        if !is_sound(self) {
            return refused(3, self);
        }
        if !calendar::is_permitted(period) {
            return refused(15, self);
        }
        self.body = BodyState {
            period,
            ..self.body
        };
        done(self)
    }

    // The clock moves on, and a row is taken where a capture is due. Refusals 3 and 14.
    pub fn tick(mut self, clock: Clock) -> Changed
        ensures { Owned (OwnerCall.tick clock) self result }
    {
        if !is_sound(self) {
            return refused(3, self);
        }
        if !calendar::is_valid(clock) {
            return refused(14, self);
        }
        self.body = body::ticked(self.body, clock);
        done(self)
    }

    // The P5 flag is set or cleared. Refusal 3.
    pub fn set_p5(mut self, held: bool) -> Changed
        ensures { Owned (OwnerCall.set_p5 held) self result }
    {
        if !is_sound(self) {
            return refused(3, self);
        }
        self.line = LineState {
            p5: held,
            ..self.line
        };
        done(self)
    }

    // Power-up: links and associations end, of which nothing is left; counters, rows and record number are cleared, and a transfer
    // is forgotten. Refusal 3.
    pub fn power_up(mut self) -> Changed
        ensures { PoweredUp self result }
    {
        if !is_sound(self) {
            return refused(3, self);
        }
        self.line = line::powered_up(self.line);
        self.body = BodyState {
            rows: body::no_rows(),
            number: 0,
            transfer: picks::no_transfer(),
            ..self.body
        };
        done(self)
    }

    // The meter with zeros wherever it holds nothing: in the places above a count, in the fields of an association that has ended or
    // is no longer pending, and in those that a transfer does not use. It is no call of the owner's: of any meter, sound or not, it holds the same.
    pub fn cleared(self) -> Meter
        ensures { Cleared self result }
    {
        Meter {
            line: line::clear_line(self.line),
            body: body::clear_body(self.body),
        }
    }
}

fn refused(number: u8, meter: Meter) -> Changed
    ensures { result ≡ changed number meter }
{
    Changed {
        refusal: number,
        meter,
    }
}

fn done(meter: Meter) -> Changed
    ensures { result ≡ changed 0 meter }
{
    Changed { refusal: 0, meter }
}
