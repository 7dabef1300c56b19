// The parts of a meter, read: of each its layout, how many bytes it takes, and its fields, each at its place. The line of `read` stands
// in each impl: one function over any part would need the very impl that calls it, which the check does not take.
ghost use Rattle.std.specs.Prelude.{◌≡◌, refl};
ghost use Rattle.image.specs.Codec.{byte, flag, Got, number, phase, picking_kind, progress, which};
ghost use Rattle.image.specs.Layout.{body_part, cipher_party_part, clock_part, columns_part, counters_part, line_part, meter_part, name_part, party_part, picking_part, register_part, registers_part, row_part, rows_part, transfer_part};
ghost use Rattle.image.specs.Sizes.{sizes};

use crate::part::{Part, Readable, bytes_or, each_at, held_at};
use body::BodyState;
use line::{CipherParty, LineState, Party, Phase};
use meter::Meter;
use model::{Clock, Counters, Name, Register};
use picks::{Picking, PickingKind, Progress, Transfer};
use store::{Columns, Registers, Row, Rows};

impl Part for Meter {
    ghost part = { meter_part };

    ghost SIZE = { 1765 };

    const SIZE: usize = 1765;

    fn read(s: &[u8], at: usize) -> Meter {
        Meter::read_at(bytes_or(s, at, &[0; Meter::SIZE]), 0)
    }

    ghost sized = { sizes.meter_size };
}

impl Readable for Meter {
    fn read_at(s: &[u8], at: usize) -> Meter {
        Meter {
            line: LineState::read_at(s, at),
            body: BodyState::read_at(s, at + LineState::SIZE),
        }
    }
}

impl Part for LineState {
    ghost part = { line_part };

    ghost SIZE = { 75 };

    const SIZE: usize = 75;

    fn read(s: &[u8], at: usize) -> LineState {
        LineState::read_at(bytes_or(s, at, &[0; LineState::SIZE]), 0)
    }

    ghost sized = { sizes.line_size };
}

impl Readable for LineState {
    fn read_at(s: &[u8], at: usize) -> LineState {
        let title = wire::array_at(s, at);
        let a = at + 8;
        let verification = Party::read_at(s, a);
        let b = a + Party::SIZE;
        let han = CipherParty::read_at(s, b);
        let p5 = bool::read_at(s, b + CipherParty::SIZE);
        LineState {
            title,
            verification,
            han,
            p5,
        }
    }
}

impl Part for Party {
    ghost part = { party_part };

    ghost SIZE = { 13 };

    const SIZE: usize = 13;

    fn read(s: &[u8], at: usize) -> Party {
        Party::read_at(bytes_or(s, at, &[0; Party::SIZE]), 0)
    }

    ghost sized = { sizes.party_size };
}

impl Readable for Party {
    fn read_at(s: &[u8], at: usize) -> Party {
        let title = wire::array_at(s, at);
        let a = at + 8;
        let up = bool::read_at(s, a);
        let b = a + 1;
        let phase = Phase::read_at(s, b);
        let agreed = wire::array_at(s, b + 1);
        Party {
            title,
            up,
            phase,
            agreed,
        }
    }
}

impl Part for CipherParty {
    ghost part = { cipher_party_part };

    ghost SIZE = { 53 };

    const SIZE: usize = 53;

    fn read(s: &[u8], at: usize) -> CipherParty {
        CipherParty::read_at(bytes_or(s, at, &[0; CipherParty::SIZE]), 0)
    }

    ghost sized = { sizes.cipher_party_size };
}

impl Readable for CipherParty {
    fn read_at(s: &[u8], at: usize) -> CipherParty {
        let party = Party::read_at(s, at);
        let a = at + Party::SIZE;
        let key = wire::array_at(s, a);
        let b = a + 16;
        let client = wire::array_at(s, b);
        let c = b + 8;
        let meter = wire::array_at(s, c);
        let counters = Counters::read_at(s, c + 8);
        CipherParty {
            party,
            key,
            client,
            meter,
            counters,
        }
    }
}

impl Part for Counters {
    ghost part = { counters_part };

    ghost SIZE = { 8 };

    const SIZE: usize = 8;

    fn read(s: &[u8], at: usize) -> Counters {
        Counters::read_at(bytes_or(s, at, &[0; Counters::SIZE]), 0)
    }

    ghost sized = { sizes.counters_size };
}

impl Readable for Counters {
    fn read_at(s: &[u8], at: usize) -> Counters {
        let accepted = u32::read_at(s, at);
        let sent = u32::read_at(s, at + 4);
        Counters { accepted, sent }
    }
}

impl Part for BodyState {
    ghost part = { body_part };

    ghost SIZE = { 1690 };

    const SIZE: usize = 1690;

    fn read(s: &[u8], at: usize) -> BodyState {
        BodyState::read_at(bytes_or(s, at, &[0; BodyState::SIZE]), 0)
    }

    ghost sized = { sizes.body_size };
}

impl Readable for BodyState {
    #[inline(never)]
    fn read_at(s: &[u8], at: usize) -> BodyState {
        let device = wire::array_at(s, at);
        let a = at + 16;
        let clock = Clock::read_at(s, a);
        let b = a + Clock::SIZE;
        let period = u32::read_at(s, b);
        let c = b + 4;
        let number = u16::read_at(s, c);
        let d = c + 2;
        let registers = Registers::read_at(s, d);
        let e = d + Registers::SIZE;
        let columns = Columns::read_at(s, e);
        let f = e + Columns::SIZE;
        let rows = Rows::read_at(s, f);
        let transfer = Transfer::read_at(s, f + Rows::SIZE);
        BodyState {
            device,
            clock,
            period,
            number,
            registers,
            columns,
            rows,
            transfer,
        }
    }
}

impl Part for Name {
    ghost part = { name_part };

    ghost SIZE = { 6 };

    const SIZE: usize = 6;

    fn read(s: &[u8], at: usize) -> Name {
        Name::read_at(bytes_or(s, at, &[0; Name::SIZE]), 0)
    }

    ghost sized = { sizes.name_size };
}

impl Readable for Name {
    fn read_at(s: &[u8], at: usize) -> Name {
        Name {
            bytes: wire::array_at(s, at),
        }
    }
}

impl Part for Clock {
    ghost part = { clock_part };

    ghost SIZE = { 12 };

    const SIZE: usize = 12;

    fn read(s: &[u8], at: usize) -> Clock {
        Clock::read_at(bytes_or(s, at, &[0; Clock::SIZE]), 0)
    }

    ghost sized = { sizes.clock_size };
}

impl Readable for Clock {
    fn read_at(s: &[u8], at: usize) -> Clock {
        Clock {
            bytes: wire::array_at(s, at),
        }
    }
}

impl Part for Registers {
    ghost part = { registers_part };

    ghost SIZE = { 216 };

    const SIZE: usize = 216;

    fn read(s: &[u8], at: usize) -> Registers {
        Registers::read_at(bytes_or(s, at, &[0; Registers::SIZE]), 0)
    }

    ghost sized = { sizes.registers_size };
}

impl Readable for Registers {
    fn read_at(s: &[u8], at: usize) -> Registers {
        held_at(s, at, store::BLANK_REGISTER)
    }
}

impl Part for Register {
    ghost part = { register_part };

    ghost SIZE = { 13 };

    const SIZE: usize = 13;

    fn read(s: &[u8], at: usize) -> Register {
        Register::read_at(bytes_or(s, at, &[0; Register::SIZE]), 0)
    }

    ghost sized = { sizes.register_size };
}

impl Readable for Register {
    fn read_at(s: &[u8], at: usize) -> Register {
        let name = Name::read_at(s, at);
        let a = at + Name::SIZE;
        let readable = bool::read_at(s, a);
        let b = a + 1;
        let scaler = u8::read_at(s, b);
        let c = b + 1;
        let unit = u8::read_at(s, c);
        let value = u32::read_at(s, c + 1);
        Register {
            name,
            readable,
            scaler,
            unit,
            value,
        }
    }
}

impl Part for Columns {
    ghost part = { columns_part };

    ghost SIZE = { 104 };

    const SIZE: usize = 104;

    fn read(s: &[u8], at: usize) -> Columns {
        Columns::read_at(bytes_or(s, at, &[0; Columns::SIZE]), 0)
    }

    ghost sized = { sizes.columns_size };
}

impl Readable for Columns {
    fn read_at(s: &[u8], at: usize) -> Columns {
        held_at(s, at, store::BLANK_NAME)
    }
}

impl Part for Rows {
    ghost part = { rows_part };

    ghost SIZE = { 1298 };

    const SIZE: usize = 1298;

    fn read(s: &[u8], at: usize) -> Rows {
        Rows::read_at(bytes_or(s, at, &[0; Rows::SIZE]), 0)
    }

    ghost sized = { sizes.rows_size };
}

impl Readable for Rows {
    fn read_at(s: &[u8], at: usize) -> Rows {
        held_at(s, at, store::BLANK_ROW)
    }
}

impl Part for Row {
    ghost part = { row_part };

    ghost SIZE = { 86 };

    const SIZE: usize = 86;

    fn read(s: &[u8], at: usize) -> Row {
        Row::read_at(bytes_or(s, at, &[0; Row::SIZE]), 0)
    }

    ghost sized = { sizes.row_size };
}

impl Readable for Row {
    fn read_at(s: &[u8], at: usize) -> Row {
        let number = u16::read_at(s, at);
        let a = at + 2;
        let clock = Clock::read_at(s, a);
        let b = a + Clock::SIZE;
        let count = usize::read_at(s, b);
        let cells = each_at(s, b + 8, 0);
        Row {
            number,
            clock,
            count,
            cells,
        }
    }
}

impl Part for Transfer {
    ghost part = { transfer_part };

    ghost SIZE = { 38 };

    const SIZE: usize = 38;

    fn read(s: &[u8], at: usize) -> Transfer {
        Transfer::read_at(bytes_or(s, at, &[0; Transfer::SIZE]), 0)
    }

    ghost sized = { sizes.transfer_size };
}

impl Readable for Transfer {
    fn read_at(s: &[u8], at: usize) -> Transfer {
        let progress = Progress::read_at(s, at);
        let a = at + 1;
        let picking = Picking::read_at(s, a);
        let block = u32::read_at(s, a + Picking::SIZE);
        Transfer {
            progress,
            picking,
            block,
        }
    }
}

impl Part for Picking {
    ghost part = { picking_part };

    ghost SIZE = { 33 };

    const SIZE: usize = 33;

    fn read(s: &[u8], at: usize) -> Picking {
        Picking::read_at(bytes_or(s, at, &[0; Picking::SIZE]), 0)
    }

    ghost sized = { sizes.picking_size };
}

impl Readable for Picking {
    fn read_at(s: &[u8], at: usize) -> Picking {
        let kind = PickingKind::read_at(s, at);
        let a = at + 1;
        let after = Clock::read_at(s, a);
        let b = a + Clock::SIZE;
        let until = Clock::read_at(s, b);
        let c = b + Clock::SIZE;
        let from = u32::read_at(s, c);
        let to = u32::read_at(s, c + 4);
        Picking {
            kind,
            after,
            until,
            from,
            to,
        }
    }
}

impl Part for bool {
    ghost part = { flag };

    ghost SIZE = { 1 };

    const SIZE: usize = 1;

    fn read(s: &[u8], at: usize) -> bool {
        bool::read_at(bytes_or(s, at, &[0; bool::SIZE]), 0)
    }

    ghost sized = { sizes.flag_size };
}

impl Readable for bool {
    fn read_at(s: &[u8], at: usize) -> bool {
        s[at] == 1
    }
}

impl Part for Phase {
    ghost part = { phase };

    ghost SIZE = { 1 };

    const SIZE: usize = 1;

    fn read(s: &[u8], at: usize) -> Phase {
        Phase::read_at(bytes_or(s, at, &[0; Phase::SIZE]), 0)
    }

    ghost sized = { sizes.phase_size };
}

impl Readable for Phase {
    fn read_at(s: &[u8], at: usize) -> Phase {
        one_of(s[at], Phase::Idle, Phase::Pending, Phase::Associated)
    }
}

impl Part for Progress {
    ghost part = { progress };

    ghost SIZE = { 1 };

    const SIZE: usize = 1;

    fn read(s: &[u8], at: usize) -> Progress {
        Progress::read_at(bytes_or(s, at, &[0; Progress::SIZE]), 0)
    }

    ghost sized = { sizes.progress_size };
}

impl Readable for Progress {
    fn read_at(s: &[u8], at: usize) -> Progress {
        one_of(s[at], Progress::Idle, Progress::Running, Progress::Ended)
    }
}

impl Part for PickingKind {
    ghost part = { picking_kind };

    ghost SIZE = { 1 };

    const SIZE: usize = 1;

    fn read(s: &[u8], at: usize) -> PickingKind {
        PickingKind::read_at(bytes_or(s, at, &[0; PickingKind::SIZE]), 0)
    }

    ghost sized = { sizes.kind_size };
}

impl Readable for PickingKind {
    fn read_at(s: &[u8], at: usize) -> PickingKind {
        one_of(
            s[at],
            PickingKind::Whole,
            PickingKind::Dated,
            PickingKind::Numbered,
        )
    }
}

impl Part for u8 {
    ghost part = { byte };

    ghost SIZE = { 1 };

    const SIZE: usize = 1;

    fn read(s: &[u8], at: usize) -> u8 {
        u8::read_at(bytes_or(s, at, &[0; u8::SIZE]), 0)
    }

    ghost sized = { refl };
}

impl Readable for u8 {
    fn read_at(s: &[u8], at: usize) -> u8 {
        s[at]
    }
}

impl Part for u16 {
    ghost part = { number 2 };

    ghost SIZE = { 2 };

    const SIZE: usize = 2;

    fn read(s: &[u8], at: usize) -> u16 {
        u16::read_at(bytes_or(s, at, &[0; u16::SIZE]), 0)
    }

    ghost sized = { refl };
}

impl Readable for u16 {
    fn read_at(s: &[u8], at: usize) -> u16 {
        match wire::number_at::<2>(s, at) {
            Some((value, _)) => value as u16,
            None => 0,
        }
    }
}

impl Part for u32 {
    ghost part = { number 4 };

    ghost SIZE = { 4 };

    const SIZE: usize = 4;

    fn read(s: &[u8], at: usize) -> u32 {
        u32::read_at(bytes_or(s, at, &[0; u32::SIZE]), 0)
    }

    ghost sized = { refl };
}

impl Readable for u32 {
    fn read_at(s: &[u8], at: usize) -> u32 {
        match wire::number_at::<4>(s, at) {
            Some((value, _)) => value,
            None => 0,
        }
    }
}

impl Part for usize {
    ghost part = { number 8 };

    ghost SIZE = { 8 };

    const SIZE: usize = 8;

    fn read(s: &[u8], at: usize) -> usize {
        usize::read_at(bytes_or(s, at, &[0; usize::SIZE]), 0)
    }

    ghost sized = { refl };
}

impl Readable for usize {
    fn read_at(s: &[u8], at: usize) -> usize {
        let high = u32::read_at(s, at) as usize;
        let low = u32::read_at(s, at + 4) as usize;
        high * 4294967296 + low
    }
}

// One of three, by a byte that is 0, 1 or 2.
fn one_of<T>(byte: u8, first: T, second: T, third: T) -> T
where
    T: Copy,
    ensures { result ≡ which first second third byte }
{
    match byte {
        0 => first,
        1 => second,
        _ => third,
    }
}
