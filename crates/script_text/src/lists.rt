// Lists in a line: of registers and of names, each up to forty. A meter takes sixteen at most and refuses more by their
// count, so the first sixteen are kept and all are counted.
ghost use Rattle.std.specs.Prelude.{◌≤◌, IfOk};

use crate::fields::{Fields, Unread};
use model::{Name, Register};

// The most entries of a list that a line may have.
const MOST: usize = 40;

impl<'a> Fields<'a> {
    // The entries of a list, the first of them as many as there is room for. How many they are.
    pub fn list<T: Copy, F: Fn(&mut Fields<'a>) -> Result<T, Unread>>(
        &mut self,
        first: &mut [T],
        entry: F,
    ) -> Result<usize, Unread>
        requires { F.IsAlwaysCallable entry }
        ensures { IfOk result (λ n. n ≤ 40) }
    {
        for n in 0..MOST {
            if self.rest().is_empty() {
                return Ok(n);
            }
            let read = entry(self)?;
            if let Some(place) = first.get_mut(n) {
                *place = read;
            }
        }
        Ok(MOST)
    }

    // A register, after a space: its name, its right, its scaler, its unit and its value, with a colon between.
    pub fn register(&mut self) -> Result<Register, Unread> {
        let name = self.name()?;
        let readable = self.flag(b':')?;
        let [scaler] = self.fixed::<1>(b':')?;
        let [unit] = self.fixed::<1>(b':')?;
        let value = self.decimal(b':', u32::MAX)?;
        Ok(Register {
            name,
            readable,
            scaler,
            unit,
            value,
        })
    }

    // A name, after a space.
    pub fn name(&mut self) -> Result<Name, Unread> {
        let bytes = self.fixed(b' ')?;
        Ok(Name { bytes })
    }
}
