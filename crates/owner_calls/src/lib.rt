// The owner's calls on a state buffer that holds the image of a meter. First comes what is refused before a
// call is made: bytes that are no whole image, then an argument that cannot be taken, by document 01's number where 01 knows the
// fault and in its order. Then the call of that name is made on the meter in the buffer; where it is accepted, the meter that
// comes back is written there, with zeros wherever it holds nothing. Else nothing is written.
#![tactic(auto)]

mod refusals;

ghost use Rattle.std.specs.Prelude.{◌≡◌, ◌↔◌, IsOk};
ghost use Rattle.owner_calls.specs.Lending.{LentOwner};
ghost use Rattle.owner_calls.specs.Promises.{Ends, NewCalled, OwnerCalled};
ghost use Rattle.owner_calls.specs.Refusals.{number_of};

use image::{ImageFault, Part, SIZE};
use meter::{Changed, Meter};
use model::{Clock, Name, Register};
pub use refusals::{ArgumentFault, Refusal, number_of};
use refusals::{are_sized, meter_for};

// A new meter, whatever the buffer held. Refusals 101 and 104.
pub fn new(
    state: &mut [u8],
    device: &[u8],
    title: &[u8],
    v_title: &[u8],
    h_title: &[u8],
) -> Result<(), Refusal>
    ensures called { NewCalled device.now title.now v_title.now h_title.now state.old state.new (number_of result) }
    ensures told { IsOk result ↔ (number_of result ≡ 0) }
{
    if state.len() != SIZE {
        return Err(Refusal::Image(ImageFault::WrongLength));
    }
    if !are_sized(device, title, v_title, h_title) {
        return Err(Refusal::Argument(ArgumentFault::WrongArgument));
    }
    let meter = Meter::new(
        wire::array_at(device, 0),
        wire::array_at(title, 0),
        wire::array_at(v_title, 0),
        wire::array_at(h_title, 0),
    );
    // the buffer has the size of an image
    let _ = image_write::write_image(meter, state);
    Ok(())
}

// Registers are given anew. Refusals 101, 102, 3 and 16.
pub fn give_registers(state: &mut [u8], registers: &[u8]) -> Result<(), Refusal>
    ensures called { OwnerCalled (LentOwner.registers registers.now) state.old state.new (number_of result) }
    ensures told { IsOk result ↔ (number_of result ≡ 0) }
{
    let meter = meter_for(
        state,
        image::are_registers(registers),
        ArgumentFault::RegistersBad,
    )?;
    let items = image::registers_in(registers);
    end(
        meter.give_registers(items, registers.len() / Register::SIZE),
        state,
    )
}

// The value of a register is set. Refusals 101, 102, 3 and 17.
pub fn set_value(state: &mut [u8], name: &[u8], value: u32) -> Result<(), Refusal>
    ensures called { OwnerCalled (LentOwner.value name.now value) state.old state.new (number_of result) }
    ensures told { IsOk result ↔ (number_of result ≡ 0) }
{
    let meter = meter_for(
        state,
        name.len() == Name::SIZE,
        ArgumentFault::NoSuchRegister,
    )?;
    let bytes = wire::array_at(name, 0);
    end(meter.set_value(Name { bytes }, value), state)
}

// Columns are set. Refusals 101, 102, 3 and 18.
pub fn set_columns(state: &mut [u8], names: &[u8]) -> Result<(), Refusal>
    ensures called { OwnerCalled (LentOwner.columns names.now) state.old state.new (number_of result) }
    ensures told { IsOk result ↔ (number_of result ≡ 0) }
{
    let meter = meter_for(state, image::are_names(names), ArgumentFault::ColumnsBad)?;
    let items = image::names_in(names);
    end(meter.set_columns(items, names.len() / Name::SIZE), state)
}

// The capture period is set. Refusals 101, 102, 3 and 15.
pub fn set_period(state: &mut [u8], period: u32) -> Result<(), Refusal>
    ensures called { OwnerCalled (LentOwner.period period) state.old state.new (number_of result) }
    ensures told { IsOk result ↔ (number_of result ≡ 0) }
{
    image::status_of(state)?;
    let meter = image::meter_in(state);
    end(meter.set_period(period), state)
}

// The clock moves on. Refusals 101, 102, 3 and 14.
pub fn tick(state: &mut [u8], clock: &[u8]) -> Result<(), Refusal>
    ensures called { OwnerCalled (LentOwner.clock clock.now) state.old state.new (number_of result) }
    ensures told { IsOk result ↔ (number_of result ≡ 0) }
{
    let meter = meter_for(
        state,
        clock.len() == Clock::SIZE,
        ArgumentFault::ClockNotValid,
    )?;
    let bytes = wire::array_at(clock, 0);
    end(meter.tick(Clock { bytes }), state)
}

// The P5 flag is set by 1 and cleared by 0. Refusals 101, 102, 3 and 104.
pub fn set_p5(state: &mut [u8], held: u32) -> Result<(), Refusal>
    ensures called { OwnerCalled (LentOwner.p5 held) state.old state.new (number_of result) }
    ensures told { IsOk result ↔ (number_of result ≡ 0) }
{
    let meter = meter_for(state, held < 2, ArgumentFault::WrongArgument)?;
    end(meter.set_p5(held == 1), state)
}

// Power-up. Refusals 101, 102 and 3.
pub fn power_up(state: &mut [u8]) -> Result<(), Refusal>
    ensures called { OwnerCalled LentOwner.powered state.old state.new (number_of result) }
    ensures told { IsOk result ↔ (number_of result ≡ 0) }
{
    image::status_of(state)?;
    let meter = image::meter_in(state);
    end(meter.power_up(), state)
}

// The end of an owner's call: the changed meter in the buffer where it is accepted.
fn end(changed: Changed, state: &mut [u8]) -> Result<(), Refusal>
    ensures called { Ends changed state.old state.new (number_of result) }
    ensures told { IsOk result ↔ (number_of result ≡ 0) }
{
    if changed.refusal != 0 {
        return Err(Refusal::Meter(changed.refusal));
    }
    // the buffer has the size of an image
    let _ = image_write::write_image(changed.meter.cleared(), state);
    Ok(())
}
