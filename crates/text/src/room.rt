// The bytes of a field in a lent room.
ghost use Rattle.std.specs.Prelude.{◌≤◌, length};

use crate::fields::bytes;

// The bytes of field `k` that the room has place for: they stand at its start.
pub fn bytes_in<'a>(line: &[u8], k: usize, room: &'a mut [u8]) -> &'a [u8]
    ensures { length result.now ≤ length room.entry.now }
{
    let n = bytes(line, k, room);
    &room[..n]
}
