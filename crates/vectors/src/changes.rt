// Messages with one bit changed, for each of their bits in turn. q, i, o: the lines Q, I and O, the last with an APDU for its frame.
use crate::LONGEST;
use std::io;
use text::first;

const BITS: [u8; 8] = [1, 2, 4, 8, 16, 32, 64, 128];

// The places at which a message is accepted with a bit changed, and for how many of the eight bits where that is not so for all.
pub fn places<F: Fn(&[u8]) -> bool>(
    printer: &impl Print,
    m: &[u8],
    is_accepted: F,
) -> io::Result<()>
    requires callable { F.IsAlwaysCallable is_accepted }
{
    print!(printer; "accepted at")?;
    let mut nowhere = true;
    for at in 0..m.len() {
        let bits = accepted_at(m, at, &is_accepted);
        nowhere = nowhere && bits == 0;
        match bits {
            0 => {}
            8 => print!(printer; " {at}")?,
            _ => print!(printer; " {at}({bits})")?,
        }
    }
    if nowhere {
        print!(printer; " no place")?;
    }
    Ok(())
}

// How many of the eight bits at a place may be changed, each by itself.
fn accepted_at<F: Fn(&[u8]) -> bool>(m: &[u8], at: usize, is_accepted: F) -> usize
    requires callable { F.IsAlwaysCallable is_accepted }
{
    BITS.iter()
        .filter(|&&bit| is_accepted(first(&changed(m, at, bit), m.len())))
        .count()
}

// A message of more bytes than there is room for is cut there, and a place outside changes nothing.
fn changed(m: &[u8], at: usize, bit: u8) -> [u8; LONGEST] {
    let mut room = [0u8; LONGEST];
    for (place, byte) in room.iter_mut().zip(m) {
        *place = *byte;
    }
    if let Some(byte) = room.get_mut(at) {
        *byte ^= bit;
    }
    room
}
