// The answer to a line, written into a buffer that is written out, to standard output or what stands in its place, whenever it
// is full, and when the session asks for it.
ghost use Rattle.std.specs.Prelude.{◌≡◌, ◌≤◌, OnOk};

use crate::fields::Unread;
use std::fmt;
use std::fmt::Write;
use text::first;

// How many bytes the buffer has.
pub const ROOM: usize = 65536;

// How many bytes a reply buffer has, and what it is filled with before a call.
pub const REPLY: usize = 4096;

pub const FILL: u8 = 0xA5;

// Answers, and how many bytes of them wait to be written out: an array and a count, since nothing here is on the heap. Where writing
// fails, no more is to be written.
#[derive(Drop)]
pub struct Answers<'a, P> {
    printer: &'a P,
    waiting: [u8; ROOM],
    used: usize,
    ghost within: { used ≤ 65536 },
}

impl<'a, P: Print> Answers<'a, P> {
    pub fn new(printer: &'a P) -> Answers<'a, P> {
        Answers {
            printer,
            waiting: [0; ROOM],
            used: 0,
        }
    }

    // Writes out what waits.
    pub fn flush(&mut self) -> fmt::Result
        ensures { OnOk result (self.new.used ≡ 0) }
    {
        let waiting = &self.waiting[..self.used];
        if self.printer.write_all(waiting).is_err() {
            return Err(fmt::Error);
        }
        self.used = 0;
        Ok(())
    }

    // The answer to a line that cannot be read.
    pub fn put_unread(&mut self, unread: Unread) -> fmt::Result {
        let column = unread.column();
        writeln!(self, "? {column}")
    }

    // An answer that is a text of its own.
    pub fn put_text(&mut self, text: &[u8]) -> fmt::Result {
        self.put(text)?;
        self.put(b"\n")
    }

    // The answer to a call: its number, the reply, and a mark where a byte of the reply buffer after the reply was changed; the whole
    // buffer for that, and the count of the reply.
    pub fn put_answer(&mut self, refusal: u8, count: usize, reply: &[u8; REPLY]) -> fmt::Result {
        write!(self, "{refusal} ")?;
        self.put_reply(first(reply, count))?;
        if !text::all_are(text::after(reply, count), FILL) {
            self.put(b" !")?;
        }
        self.put(b"\n")
    }

    fn put_reply(&mut self, reply: &[u8]) -> fmt::Result {
        if reply.is_empty() {
            return self.put(b"-");
        }
        for b in reply {
            self.put(&text::pair_of(*b))?;
        }
        Ok(())
    }

    // Bytes behind those that wait; where the buffer is full they are written out first.
    fn put(&mut self, bytes: &[u8]) -> fmt::Result {
        for b in bytes {
            if self.used == ROOM {
                self.flush()?;
            }
            self.waiting[self.used] = *b;
            self.used += 1;
        }
        Ok(())
    }
}

impl<P: Print> Write for Answers<'_, P> {
    fn write_str(&mut self, text: &str) -> fmt::Result {
        self.put(text.as_bytes())
    }
}
