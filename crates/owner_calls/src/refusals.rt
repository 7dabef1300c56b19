// Why a call is refused, and what is refused before a call is made.
ghost use Rattle.std.specs.Prelude.{◌≡◌};
ghost use Rattle.owner_calls.specs.declared.refusals.Refusal.TheVariants.{Image};
ghost use Rattle.owner_calls.specs.Refusals.{argument_number, fault_of, MeterFor, new_sized, number, number_of};

use image::ImageFault;
use meter::Meter;

// An argument that cannot be taken.
#[derive(Clone, Copy, PartialEq, Eq)]
pub enum ArgumentFault {
    ClockNotValid,
    RegistersBad,
    NoSuchRegister,
    ColumnsBad,
    // an argument of a new meter of another length, a flag that is neither 0 nor 1
    WrongArgument,
}

impl ArgumentFault {
    // Document 01's number, and 104 for what it does not know.
    pub fn number(self) -> u8
        ensures { result ≡ argument_number self }
    {
        match self {
            ArgumentFault::ClockNotValid => 14,
            ArgumentFault::RegistersBad => 16,
            ArgumentFault::NoSuchRegister => 17,
            ArgumentFault::ColumnsBad => 18,
            ArgumentFault::WrongArgument => 104,
        }
    }
}

#[derive(Clone, Copy, PartialEq, Eq)]
pub enum Refusal {
    // the buffer holds no whole image
    Image(ImageFault),
    // the meter in it is not sound
    NotSound,
    Argument(ArgumentFault),
    // the meter refuses the call, by this number of document 01, as it stands beside a meter (`Changed`)
    Meter(u8),
}

impl From<ImageFault> for Refusal {
    ghost from_gives = { λ fault r. r ≡ Image fault };

    fn from(fault: ImageFault) -> Refusal {
        Refusal::Image(fault)
    }
}

impl Refusal {
    pub fn number(self) -> u8
        ensures { result ≡ number self }
    {
        match self {
            Refusal::Image(fault) => fault.number(),
            Refusal::NotSound => ImageFault::NoImage.number(),
            Refusal::Argument(fault) => fault.number(),
            Refusal::Meter(number) => number,
        }
    }
}

// The number that a call answers: 0 where it is accepted.
pub fn number_of(answer: Result<(), Refusal>) -> u8
    ensures { result ≡ number_of answer }
{
    match answer {
        Ok(()) => 0,
        Err(refusal) => refusal.number(),
    }
}

// The meter in a state buffer, for a call whose argument is taken or has this fault. The state is tested before what the call is
// given.
pub fn meter_for(state: &[u8], is_taken: bool, fault: ArgumentFault) -> Result<Meter, Refusal>
    ensures { MeterFor state.now (fault_of is_taken (argument_number fault)) result }
{
    image::status_of(state)?;
    let meter = image::meter_in(state);
    if is_taken {
        return Ok(meter);
    }
    if !meter::is_sound(meter) {
        return Err(Refusal::NotSound);
    }
    Err(Refusal::Argument(fault))
}

// Whether a device name and the titles of the meter, of V and of H have their lengths.
pub fn are_sized(device: &[u8], title: &[u8], v_title: &[u8], h_title: &[u8]) -> bool
    ensures { result ≡ new_sized device.now title.now v_title.now h_title.now }
{
    device.len() == 16 && title.len() == 8 && v_title.len() == 8 && h_title.len() == 8
}
