// Birlimock for firmware in C and Rust: every call works on a state buffer that holds the image of a meter, and answers a
// number. What is refused before a call is made comes first, in document 01's order and by its numbers where it knows the fault:
// a buffer that holds no whole image stands for a state that is not sound. Then the call of that name is made on the meter in
// the buffer, and the meter that comes back is written there, with zeros wherever it holds nothing: by an owner's call
// (owner_calls) where it is accepted, by a frame call unless its refusal leaves the meter unchanged. Else nothing is written.
// include/birlimock.h has the calls as C sees them.
#![tactic(auto)]

ghost use Rattle.std.specs.Prelude.{◌≡◌, length};
ghost use Rattle.model.specs.Calls.{lent_refusal};
ghost use Rattle.model.specs.Periods.{listed};
ghost use Rattle.protocol.specs.Outcomes.{keeping};
ghost use Rattle.image.specs.Image.{image_size, status_of, whole};
ghost use Rattle.owner_calls.specs.Lending.{LentOwner};
ghost use Rattle.owner_calls.specs.Promises.{NewCalled, OwnerCalled};
ghost use Rattle.p2.specs.Promise.{lent};
ghost use Rattle.capi.specs.Promises.{FrameCalled, FrameEnds};
ghost use Rattle.capi.specs.Version.{library_version};

use ending::Received;
use image::SIZE;
use owner_calls::number_of;

// 3.0.1, in one number.
const VERSION: u32 = 30001;

// The version of the library.
#[unsafe(no_mangle)]
pub extern "C" fn birlimock_version() -> u32
    ensures { result ≡ library_version }
{
    VERSION
}

// How many bytes a state buffer has.
#[unsafe(no_mangle)]
pub extern "C" fn birlimock_state_size() -> usize
    ensures { result ≡ image_size }
{
    SIZE
}

// A new meter, whatever the buffer held. Refusals 101 and 104.
#[unsafe(no_mangle)]
pub extern "C" fn birlimock_new(
    state: &mut [u8],
    device: &[u8],
    title: &[u8],
    v_title: &[u8],
    h_title: &[u8],
) -> u8
    ensures { NewCalled device.now title.now v_title.now h_title.now state.old state.new result }
{
    number_of(owner_calls::new(state, device, title, v_title, h_title))
}

// Registers are given anew. Refusals 101, 102, 3 and 16.
#[unsafe(no_mangle)]
pub extern "C" fn birlimock_give_registers(state: &mut [u8], registers: &[u8]) -> u8
    ensures { OwnerCalled (LentOwner.registers registers.now) state.old state.new result }
{
    number_of(owner_calls::give_registers(state, registers))
}

// The value of a register is set. Refusals 101, 102, 3 and 17.
#[unsafe(no_mangle)]
pub extern "C" fn birlimock_set_value(state: &mut [u8], name: &[u8], value: u32) -> u8
    ensures { OwnerCalled (LentOwner.value name.now value) state.old state.new result }
{
    number_of(owner_calls::set_value(state, name, value))
}

// Columns are set. Refusals 101, 102, 3 and 18.
#[unsafe(no_mangle)]
pub extern "C" fn birlimock_set_columns(state: &mut [u8], names: &[u8]) -> u8
    ensures { OwnerCalled (LentOwner.columns names.now) state.old state.new result }
{
    number_of(owner_calls::set_columns(state, names))
}

// The capture period is set. Refusals 101, 102, 3 and 15.
#[unsafe(no_mangle)]
pub extern "C" fn birlimock_set_period(state: &mut [u8], period: u32) -> u8
    ensures { OwnerCalled (LentOwner.period period) state.old state.new result }
{
    number_of(owner_calls::set_period(state, period))
}

// The clock moves on. Refusals 101, 102, 3 and 14.
#[unsafe(no_mangle)]
pub extern "C" fn birlimock_tick(state: &mut [u8], clock: &[u8]) -> u8
    ensures { OwnerCalled (LentOwner.clock clock.now) state.old state.new result }
{
    number_of(owner_calls::tick(state, clock))
}

// The P5 flag is set by 1 and cleared by 0. Refusals 101, 102, 3 and 104.
#[unsafe(no_mangle)]
pub extern "C" fn birlimock_set_p5(state: &mut [u8], held: u32) -> u8
    ensures { OwnerCalled (LentOwner.p5 held) state.old state.new result }
{
    number_of(owner_calls::set_p5(state, held))
}

// Power-up. Refusals 101, 102 and 3.
#[unsafe(no_mangle)]
pub extern "C" fn birlimock_power_up(state: &mut [u8]) -> u8
    ensures { OwnerCalled LentOwner.powered state.old state.new result }
{
    number_of(owner_calls::power_up(state))
}

// A frame is received; `sent` is how many bytes of the reply room go out. Refusals 1 and 2, then 101, 102 and 3, then 4 to 13.
#[unsafe(no_mangle)]
#[tactic(auto, using(crate::proofs::FrameLaws::refused_before))]
pub extern "C" fn birlimock_receive(
    state: &mut [u8],
    frame: &[u8],
    guk: &[u8],
    ak: &[u8],
    challenge: &[u8],
    reply: &mut [u8],
    sent: &mut usize,
) -> u8
    ensures { FrameCalled (lent (length reply.old) guk.now ak.now challenge.now frame.now) state.old state.new reply.old reply.new sent.new result }
{
    *sent = 0;
    let refusal = p2::lent_refusal(reply.len(), guk, ak, challenge);
    if refusal != 0 {
        return refusal;
    }
    if let Err(fault) = image::status_of(state) {
        return fault.number();
    }
    receive_held(state, frame, guk, ak, challenge, reply, sent)
}

// The frame call that is made, on the meter in the buffer. Out of line, so that a call that is refused before takes no stack for a
// meter.
#[inline(never)]
#[tactic(auto, using(crate::proofs::FrameLaws::called_on_image))]
fn receive_held(
    state: &mut [u8],
    frame: &[u8],
    guk: &[u8],
    ak: &[u8],
    challenge: &[u8],
    reply: &mut [u8],
    sent: &mut usize,
) -> u8
    requires taken { lent_refusal (lent (length reply.old) guk.now ak.now challenge.now frame.now) ≡ 0 }
    requires held { status_of state.old ≡ whole }
    ensures { FrameCalled (lent (length reply.old) guk.now ak.now challenge.now frame.now) state.old state.new reply.old reply.new sent.new result }
{
    let meter = image::meter_in(state);
    let received = p2::receive(meter, frame, guk, ak, challenge, reply);
    *sent = received.count;
    frame_end(received, state)
}

// The end of a frame call: its number, and the meter in the buffer unless the refusal is one that leaves it unchanged. Out of line,
// so that it adds nothing to the stack of the call itself.
#[inline(never)]
fn frame_end(received: Received, state: &mut [u8]) -> u8
    ensures { FrameEnds received state.old state.new result }
{
    if !leaves_meter(received.refusal) {
        // the buffer has the size of an image
        let _ = image_write::write_image(received.meter.cleared(), state);
    }
    received.refusal
}

// Whether a frame call that answers this number leaves the meter unchanged.
fn leaves_meter(number: u8) -> bool
    ensures { result ≡ listed number keeping }
{
    matches!(number, 1..=6 | 8..=11)
}
