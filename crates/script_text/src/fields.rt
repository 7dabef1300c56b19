// Fields of a line, read one after the other. A reader that meets a character with which no line can go on, or the end of the line
// where it wants more, gives that place, and what it was read for goes no further.
ghost use Rattle.std.specs.Prelude.{◌≡◌, ◌+◌, ◌*◌, ◌≤◌, ◌<◌, ◌∷◌, ◌↔◌, length, take, drop, IsOk, IfOk, OnOk, OnErr, if◌then◌else◌};

use text::digit;

// The place in a line of the first character that cannot be read, or its end where it ends too early.
#[derive(Clone, Copy, Debug, PartialEq, Eq)]
pub struct Unread {
    pub at: usize,
}

// The most bytes that a byte string may have.
pub const MOST: usize = 4096;

// A byte string that was read: an array and a count, since nothing here is on the heap.
#[derive(Drop)]
pub struct ByteString {
    bytes: [u8; MOST],
    count: usize,
}

impl ByteString {
    // Of no bytes.
    pub fn new() -> ByteString
        ensures { result.count ≡ 0 }
    {
        ByteString {
            bytes: [0; MOST],
            count: 0,
        }
    }

    pub fn as_slice(&self) -> &[u8]
        ensures { result.now ≡ take self.now.count self.now.bytes }
    {
        text::first(&self.bytes, self.count)
    }
}

// A line, and what is still to be read of it.
#[derive(Drop)]
pub struct Fields<'a> {
    line: &'a [u8],
    rest: &'a [u8],
    ghost within: { length rest.now ≤ length line.now },
}

impl<'a> Fields<'a> {
    pub fn new(line: &'a [u8]) -> Fields<'a>
        ensures { result.rest.now ≡ line.now }
    {
        Fields { line, rest: line }
    }

    // What is still to be read.
    pub fn rest(&self) -> &'a [u8]
        ensures { result ≡ self.now.rest }
    {
        self.rest
    }

    // That the next character cannot be read.
    pub fn unread(&self) -> Unread
        ensures { result.at + length self.now.rest.now ≡ length self.now.line.now }
    {
        Unread {
            at: self.line.len() - self.rest.len(),
        }
    }

    // So many characters were read, or all where there are fewer.
    pub fn skip(&mut self, count: usize)
        ensures { self.new.rest.now ≡ drop count self.old.rest.now }
    {
        self.rest = text::after(self.rest, count);
    }

    // This character.
    pub fn exactly(&mut self, wanted: u8) -> Result<(), Unread>
        ensures ok { OnOk result (self.old.rest.now ≡ wanted ∷ self.new.rest.now) }
        ensures err { OnErr result (self.new.rest.now ≡ self.old.rest.now) }
    {
        let rest = self.rest.strip_prefix(&[wanted]);
        self.rest = rest.ok_or(self.unread())?;
        Ok(())
    }

    // The end of the line.
    pub fn end(&self) -> Result<(), Unread>
        ensures { IsOk result ↔ (length self.now.rest.now ≡ 0) }
    {
        if self.rest.is_empty() {
            Ok(())
        } else {
            Err(self.unread())
        }
    }

    // A separator, and as many bytes as the array has.
    pub fn fixed<const N: usize>(&mut self, separator: u8) -> Result<[u8; N], Unread>
        ensures { OnOk result (length self.old.rest.now ≡ 1 + 2 * N + length self.new.rest.now) }
    {
        self.exactly(separator)?;
        let mut bytes = [0; N];
        if self.digit_pairs(&mut bytes)? < N {
            return Err(self.unread());
        }
        Ok(bytes)
    }

    // A space, and a byte string: `-`, or bytes. It is read where it is to stand, since a copy of its room costs more than reading it.
    pub fn byte_string(&mut self, out: &mut ByteString) -> Result<(), Unread> {
        self.exactly(b' ')?;
        if self.exactly(b'-').is_ok() {
            out.count = 0;
            return Ok(());
        }
        out.count = self.digit_pairs(&mut out.bytes)?;
        if out.count == 0 {
            return Err(self.unread());
        }
        Ok(())
    }

    // Bytes of two digits each, up to a character that is no digit, and as many as `out` has at most. How many they are.
    fn digit_pairs(&mut self, out: &mut [u8]) -> Result<usize, Unread>
        ensures bound { IfOk result (λ n. n ≤ length out.old) }
        ensures shorter { IfOk result (λ n. length self.old.rest.now ≡ 2 * n + length self.new.rest.now) }
    {
        for (count, place) in out.iter_mut().enumerate() {
            let Ok(high) = self.digit() else {
                return Ok(count);
            };
            *place = high * 16 + self.digit()?;
        }
        Ok(out.len())
    }

    // A hexadecimal digit.
    fn digit(&mut self) -> Result<u8, Unread>
        ensures bound { IfOk result (λ d. d < 16) }
        ensures ok { OnOk result (length self.old.rest.now ≡ 1 + length self.new.rest.now) }
        ensures err { OnErr result (self.new.rest.now ≡ self.old.rest.now) }
    {
        let (c, rest) = self.rest.split_first().ok_or(self.unread())?;
        let d = digit(*c).ok_or(self.unread())?;
        self.rest = rest;
        Ok(d)
    }

    // A separator, and 0 or 1.
    pub fn flag(&mut self, separator: u8) -> Result<bool, Unread>
        ensures { IfOk result (λ b. self.old.rest.now ≡ separator ∷ (if b then 49 else 48) ∷ self.new.rest.now) }
    {
        self.exactly(separator)?;
        if self.exactly(b'0').is_ok() {
            return Ok(false);
        }
        self.exactly(b'1')?;
        Ok(true)
    }

    // A separator, and a decimal number up to `most`. A `while`, since each digit is held against the bound before the next is read.
    pub fn decimal(&mut self, separator: u8, most: u32) -> Result<u32, Unread>
        ensures { IfOk result (λ n. n ≤ most) }
    {
        self.exactly(separator)?;
        let mut number = self.longer(0, most)?;
        while self.rest.first().is_some_and(u8::is_ascii_digit) {
            number = self.longer(number, most)?;
        }
        Ok(number)
    }

    // A number with one more digit behind it.
    fn longer(&mut self, number: u32, most: u32) -> Result<u32, Unread>
        ensures bound { IfOk result (λ n. n ≤ most) }
        ensures shorter { OnOk result (length self.new.rest.now < length self.old.rest.now) }
    {
        let (c, rest) = self.rest.split_first().ok_or(self.unread())?;
        if !c.is_ascii_digit() {
            return Err(self.unread());
        }
        let longer = u64::from(number) * 10 + u64::from(*c - b'0');
        if u64::from(most) < longer {
            return Err(self.unread());
        }
        self.rest = rest;
        Ok(longer as u32)
    }
}
