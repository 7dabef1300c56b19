// Reading an input into a buffer.
ghost use Rattle.std.specs.Prelude.{◌≤◌, length};

use std::io::Read;

// Reads until the buffer is full, the input ends or a read fails, and gives how many bytes stand at its start.
// A `while`, since each read says how far it came.
pub fn read_full<R: Read>(input: &mut R, out: &mut [u8]) -> usize
    ensures { result ≤ length out.new }
{
    let mut done = 0;
    while let Ok(n @ 1..) = input.read(&mut out[done..]) {
        done += n;
    }
    done
}
