// Lines of the input: the characters of one held in a buffer of the longest line, and what is skipped. Of a line that is longer
// its first characters are held, and that it is longer.
ghost use Rattle.std.specs.Prelude.{◌≡◌, ◌+◌, ◌≤◌, length, ◌↔◌, IsOk, IfOk, min, take};

use crate::fields::Unread;

// The most characters that a line may have.
pub const LONGEST: usize = 32768;

// The characters of a line as they come in, and how many they are: one more than the longest line has where there is no room for all.
// An array and a count, since nothing here is on the heap.
#[derive(Drop)]
pub struct HeldLine {
    characters: [u8; LONGEST],
    count: usize,
}

impl HeldLine {
    pub fn new() -> HeldLine
        ensures { result.count ≡ 0 }
    {
        HeldLine {
            characters: [0; LONGEST],
            count: 0,
        }
    }

    // Holds more characters behind those held.
    pub fn append(&mut self, more: &[u8])
        ensures { self.new.count ≡ min (self.old.count + length more.now) 32769 }
    {
        if let Some(room) = self.characters.get_mut(self.count..) {
            for (place, c) in room.iter_mut().zip(more) {
                *place = *c;
            }
        }
        self.count = self.count.saturating_add(more.len()).min(LONGEST + 1);
    }

    // The line, where all of it is held.
    pub fn line(&self) -> Result<&[u8], Unread>
        ensures whole { IsOk result ↔ (self.now.count ≤ 32768) }
        ensures characters { IfOk result (λ s. s.now ≡ take self.now.count self.now.characters) }
    {
        self.characters
            .get(..self.count)
            .ok_or(Unread { at: LONGEST })
    }

    // Whether the line is empty or, read whole, a comment.
    pub fn is_skipped(&self) -> bool {
        matches!(self.line(), Ok([] | [b'#', ..]))
    }

    // Holds none.
    pub fn clear(&mut self)
        ensures { self.new.count ≡ 0 }
    {
        self.count = 0;
    }
}

impl Unread {
    // The column of the place, counted from 1; that after the longest line for every place behind it.
    pub fn column(&self) -> usize
        ensures { result ≡ min self.now.at 32768 + 1 }
    {
        self.at.min(LONGEST) + 1
    }
}
