// The types that the model of a meter shares with the code: the clients, names, clocks, registers and counters, and the tests of
// soundness; and two limits. But for the number of a denial there are no functions: what a meter holds and does is defined in specs/, and
// demand 3 is proved over it in proofs/.

#![tactic(auto)]

ghost use Rattle.std.specs.Prelude.{◌≡◌};
ghost use Rattle.model.specs.Codes.{code_of};

// The bytes that data for H may take in one frame, and those of a full block: data_room and block_room of specs/Limits, of the longest
// information that is sent.
pub const DATA_ROOM: usize = 740;

pub const BLOCK_ROOM: usize = 732;

// The clients of the link that cipher: "H" of document 01.
#[derive(Clone, Copy)]
pub enum CipherClient {
    Han,
}

// The clients of the link: "V" of document 01, and those that cipher.
#[derive(Clone, Copy)]
pub enum Client {
    Verification,
    Ciphering(CipherClient),
}

// A logical name: the "name" of an object or a register.
#[derive(Clone, Copy, PartialEq, Eq)]
pub struct Name {
    pub bytes: [u8; 6],
}

// A clock: year (two bytes), month, day, day of week, hour, minute, second, hundredths, deviation (two bytes), status.
#[derive(Clone, Copy)]
pub struct Clock {
    pub bytes: [u8; 12],
}

// A register as it is given: `readable` is its "H right".
#[derive(Clone, Copy)]
pub struct Register {
    pub name: Name,
    pub readable: bool,
    pub scaler: u8,
    pub unit: u8,
    pub value: u32,
}

// Why a read or a method is denied. The numbers are the result codes that go out.
#[derive(Clone, Copy, PartialEq, Eq)]
pub enum Denial {
    // not served, or no right to it
    NotServed = 3,
    NameUnknown = 4,
    ClassWrong = 9,
    // a selector or a parameter of another shape, or where none belongs
    ShapeWrong = 12,
    // a range or entries that no rows can be asked for by
    RowsWrong = 13,
    // for one frame, and blocks were not agreed
    AnswerTooLong = 250,
}

impl From<Denial> for u8 {
    ghost from_gives = { λ denial code. code ≡ code_of denial };

    fn from(denial: Denial) -> u8 {
        denial as u8
    }
}

// The invocation counters of a ciphering client, the "counter pair": the last one accepted from it, and the meter's own, last sent.
#[derive(Clone, Copy)]
pub struct Counters {
    pub accepted: u32,
    pub sent: u32,
}

// The tests of a sound state, in the order of document 01, then that of document 02, Q-4.
#[derive(Clone, Copy)]
pub enum SoundnessTest {
    RegisterList,
    ColumnList,
    PeriodPermitted,
    ClockValid,
    RowClocksValid,
    RowCount,
    RowCells,
    AssociationKind,
    AssociationOnLink,
    AgreedServices,
    TransferPossible,
}
