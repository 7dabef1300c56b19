// A session: the lines of an input, each held to its end and given to a worker. `script` answers each; `diagnose` keeps what is
// told of the last frame, and stops at a line that it cannot take.
ghost use Rattle.std.specs.Prelude.{◌≤◌, length};

use script_text::fields::Unread;
use script_text::lines::HeldLine;
use std::io::Read;

// The most bytes of one read.
const MOST: usize = 65536;

// What the lines of an input are given to.
pub trait Worker {
    // Why it takes no more of them.
    type Stop;

    // A line that is not skipped, and which one of the input it is, the first of them 1; or where it is too long to be held.
    fn take(&mut self, number: u64, line: Result<&[u8], Unread>) -> Result<(), Self::Stop>;

    // Before more input is waited for, and at its end.
    fn pause(&mut self) -> Result<(), Self::Stop>;
}

// Why a session did not go through its input: it is empty, it cannot be read, or the worker has stopped.
#[derive(Drop)]
pub enum Failure<S> {
    Empty,
    Unreadable,
    Stopped(S),
}

// The line that is held, and how many lines have ended.
#[derive(Drop)]
struct Lines {
    held: HeldLine,
    ended: u64,
}

// Part after part until the input ends. A proved loop has to end, and nothing says that an input does: so the parts are
// counted, up to a number that no run reaches. A line that is held at the end is a line, but not where reading failed in its middle.
pub fn run<R: Read, W: Worker>(input: &mut R, worker: &mut W) -> Result<(), Failure<W::Stop>> {
    let mut lines = Lines {
        held: HeldLine::new(),
        ended: 0,
    };
    let mut bytes = [0u8; MOST];
    for part in 0..u64::MAX {
        match input.read(&mut bytes) {
            Ok(0) if part == 0 => return Err(Failure::Empty),
            Ok(0) => return lines.end(worker).map_err(Failure::Stopped),
            Ok(n) => lines.feed(worker, &bytes[..n]).map_err(Failure::Stopped)?,
            Err(_) => return Err(Failure::Unreadable),
        }
    }
    Ok(())
}

impl Lines {
    // The bytes of a read, line by line. What stands after the last line end is held.
    fn feed<W: Worker>(&mut self, worker: &mut W, input: &[u8]) -> Result<(), W::Stop> {
        let mut at: usize = 0;
        let mut end = end_from(input, 0);
        while end < input.len() {
            self.held.append(&input[at..end]);
            self.end_line(worker)?;
            at = end + 1;
            end = end_from(input, at);
        }
        self.held.append(&input[at..end]);
        worker.pause()
    }

    // The line that is held is taken, unless it is to be skipped; then none is held.
    fn end_line<W: Worker>(&mut self, worker: &mut W) -> Result<(), W::Stop> {
        self.ended = self.ended.wrapping_add(1);
        if !self.held.is_skipped() {
            worker.take(self.ended, self.held.line())?;
        }
        self.held.clear();
        Ok(())
    }

    fn end<W: Worker>(&mut self, worker: &mut W) -> Result<(), W::Stop> {
        self.end_line(worker)?;
        worker.pause()
    }
}

// The place of the next line end, or the end of the bytes. Over the whole slice, by places: the compiler looks at many bytes at once
// then, and not where a part of the slice is searched (`split_inclusive`, `position`).
fn end_from(s: &[u8], from: usize) -> usize
    requires { from ≤ length s.now }
    ensures { (from ≤ result) × (result ≤ length s.now) }
{
    for i in from..s.len() {
        if s[i] == b'\n' {
            return i;
        }
    }
    s.len()
}
