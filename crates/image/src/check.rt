// Whether bytes are taken for a part: its flags are 0 or 1; its phases, progress and kind of a transfer are at most 2. Any
// other byte is taken as it is.
ghost use Rattle.std.specs.Prelude.{◌≡◌, ◌+◌, ◌*◌, ◌<◌, ◌≤◌, drop, length};
ghost use Rattle.image.specs.Codec.{below_three, many};

use crate::part::Part;
use body::BodyState;
use line::{CipherParty, LineState, Party, Phase};
use meter::Meter;
use model::{Name, Register};
use picks::{PickingKind, Progress, Transfer};

// How far into the body the first register stands, and the transfer.
const FIRST_REGISTER: usize = 42;

const TRANSFER: usize = 1652;

// A part of which some bytes are not taken.
pub trait Tested: Part {
    fn is_taken(s: &[u8], at: usize) -> bool
        requires { at + Self.SIZE ≤ length s.now }
        ensures { result ≡ Self.part.taken (drop at s.now) };
}

impl Tested for Meter {
    fn is_taken(s: &[u8], at: usize) -> bool {
        LineState::is_taken(s, at) && BodyState::is_taken(s, at + LineState::SIZE)
    }
}

impl Tested for LineState {
    fn is_taken(s: &[u8], at: usize) -> bool {
        let a = at + 8;
        let b = a + Party::SIZE;
        Party::is_taken(s, a)
            && CipherParty::is_taken(s, b)
            && bool::is_taken(s, b + CipherParty::SIZE)
    }
}

impl Tested for CipherParty {
    fn is_taken(s: &[u8], at: usize) -> bool {
        Party::is_taken(s, at)
    }
}

impl Tested for Party {
    fn is_taken(s: &[u8], at: usize) -> bool {
        bool::is_taken(s, at + 8) && Phase::is_taken(s, at + 9)
    }
}

impl Tested for BodyState {
    fn is_taken(s: &[u8], at: usize) -> bool {
        each_taken::<Register>(s, at + FIRST_REGISTER, 16) && Transfer::is_taken(s, at + TRANSFER)
    }
}

impl Tested for Register {
    fn is_taken(s: &[u8], at: usize) -> bool {
        bool::is_taken(s, at + Name::SIZE)
    }
}

impl Tested for Transfer {
    fn is_taken(s: &[u8], at: usize) -> bool {
        Progress::is_taken(s, at) && PickingKind::is_taken(s, at + 1)
    }
}

impl Tested for bool {
    fn is_taken(s: &[u8], at: usize) -> bool {
        s[at] < 2
    }
}

impl Tested for Phase {
    fn is_taken(s: &[u8], at: usize) -> bool {
        is_below_three(s, at)
    }
}

impl Tested for Progress {
    fn is_taken(s: &[u8], at: usize) -> bool {
        is_below_three(s, at)
    }
}

impl Tested for PickingKind {
    fn is_taken(s: &[u8], at: usize) -> bool {
        is_below_three(s, at)
    }
}

fn is_below_three(s: &[u8], at: usize) -> bool
    requires { at < length s.now }
    ensures { result ≡ below_three (drop at s.now) }
{
    s[at] < 3
}

// Whether so many parts, one after the other, are taken.
pub fn each_taken<T: Tested>(s: &[u8], at: usize, count: usize) -> bool
    requires { at + count * T.SIZE ≤ length s.now }
    ensures { result ≡ (many count T.part).taken (drop at s.now) }
{
    (0..count).all(
        |i: usize| -> bool
            requires { at + i * T.SIZE + T.SIZE ≤ length s.now }
            ensures { result ≡ T.part.taken (drop (at + i * T.SIZE) s.entry.now) }
        { T::is_taken(s, at + i * T::SIZE) },
    )
}
