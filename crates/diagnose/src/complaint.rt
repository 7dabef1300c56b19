// Why nothing is told, as a line of standard error says it.
use script_calls::session::Failure;
use std::io::{Cursor, Write};
use std::{fmt, io, str};

#[derive(Drop)]
pub enum Complaint {
    Usage,
    Unopened(io::Error),
    Unreadable,
    // A line that cannot be read, and the column of its first character with which no readable line goes on.
    Line(u64, usize),
    // A line whose image is no meter's, and the number by which it is refused.
    Image(u64, u8),
    // A frame with no meter before it.
    EarlyFrame(u64),
    NoFrame,
    Unwritable,
}

impl From<Failure<Complaint>> for Complaint {
    fn from(failure: Failure<Complaint>) -> Complaint {
        match failure {
            Failure::Empty => Complaint::NoFrame,
            Failure::Unreadable => Complaint::Unreadable,
            Failure::Stopped(complaint) => complaint,
        }
    }
}

impl fmt::Display for Complaint {
    fn fmt<W: fmt::Write>(&self, f: &mut fmt::Formatter<W>) -> fmt::Result {
        match self {
            Complaint::Usage => write!(f, "usage: diagnose [FILE]"),
            Complaint::Unopened(e) => write_reason(f, e),
            Complaint::Unreadable => write!(f, "the input cannot be read"),
            Complaint::Line(line, column) => {
                write!(f, "line {line}, column {column} cannot be read")
            }
            Complaint::Image(line, refusal) => {
                write!(f, "line {line}, its image is refused by {refusal}")
            }
            Complaint::EarlyFrame(line) => {
                write!(f, "line {line}, there is no meter before this frame")
            }
            Complaint::NoFrame => write!(f, "there is no frame in the input"),
            Complaint::Unwritable => write!(f, "standard output cannot be written"),
        }
    }
}

// A file that is not opened, and what the system says of it, without the number that stands behind it in brackets.
fn write_reason<W: fmt::Write>(f: &mut fmt::Formatter<W>, e: &io::Error) -> fmt::Result {
    let mut words = Cursor::new([0u8; 256]);
    let _ = write!(words, "{e}");
    let n = words.position() as usize;
    let bytes = words.into_inner();
    let all = str::from_utf8(text::first(&bytes, n)).unwrap_or("");
    let reason = all.split_once(" (os error ").map_or(all, |parts| parts.0);
    write!(f, "the file cannot be opened: {reason}")
}
