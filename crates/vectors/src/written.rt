// What the library writes, and what is printed of it.
use std::io;
use text::{Hex, first};

// The room that is lent for it.
const ROOM: usize = 128;

// What is written at the start of the room: `put` gives where it ends.
pub fn written<F: FnOnce(&mut [u8; ROOM]) -> usize>(printer: &impl Print, put: F) -> io::Result<()>
    requires { F.IsAlwaysCallable put }
{
    let mut out = [0u8; ROOM];
    let end = put(&mut out);
    print!(printer; "{}", Hex(first(&out, end)))
}

pub fn yes_or_no(printer: &impl Print, holds: bool) -> io::Result<()> {
    print!(printer; "{}", if holds { "yes" } else { "no" })
}
