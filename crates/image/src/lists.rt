// Lists as an owner lends them: one record after the other, each as it stands in an image. Whether bytes are such a list, and the
// records as an array; of a list that is longer than the array its first records.
ghost use Rattle.std.specs.Prelude.{◌≡◌, ◌<◌};
ghost use Rattle.image.specs.Layout.{name_part, register_part};
ghost use Rattle.image.specs.Lists.{Begins, whole_list};

use crate::check::each_taken;
use crate::part::{Part, Readable, firsts_at};
use model::{Name, Register};

// Whether bytes are whole records of registers, each with a right that is 0 or 1.
pub fn are_registers(s: &[u8]) -> bool
    ensures { result ≡ whole_list register_part s.now }
{
    s.len() % Register::SIZE == 0 && each_taken::<Register>(s, 0, s.len() / Register::SIZE)
}

pub fn registers_in(s: &[u8]) -> [Register; 16]
    ensures { Begins register_part 16 s.now result }
{
    firsts_in(
        s,
        Register {
            name: Name { bytes: [0; 6] },
            readable: false,
            scaler: 0,
            unit: 0,
            value: 0,
        },
    )
}

// Whether bytes are whole names.
pub fn are_names(s: &[u8]) -> bool
    ensures { result ≡ whole_list name_part s.now }
{
    s.len() % Name::SIZE == 0
}

pub fn names_in(s: &[u8]) -> [Name; 16]
    ensures { Begins name_part 16 s.now result }
{
    firsts_in(s, Name { bytes: [0; 6] })
}

fn firsts_in<T: Readable, const N: usize>(s: &[u8], blank: T) -> [T; N]
    requires { 0 < T.SIZE }
    ensures { Begins T.part N s.now result }
{
    let count = (s.len() / T::SIZE).min(N);
    firsts_at(s, 0, count, blank)
}
