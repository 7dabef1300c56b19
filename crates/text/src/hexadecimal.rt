// Bytes as two hexadecimal digits each: read in either case, written in upper case.
ghost use Rattle.std.specs.Prelude.{◌<◌, ◌≤◌, length, IfSome};

const DIGITS: [u8; 16] = *b"0123456789ABCDEF";

// The value of a digit, decimal or hexadecimal.
pub fn digit(c: u8) -> Option<u8>
    ensures { IfSome result (λ d. d < 16) }
{
    match c {
        b'0'..=b'9' => Some(c - b'0'),
        b'A'..=b'F' => Some(c - b'A' + 10),
        b'a'..=b'f' => Some(c - b'a' + 10),
        _ => None,
    }
}

// The bytes of pairs of digits, as many as `out` has room for, and how many they are. A character that is no digit counts as 0.
pub fn digits(text: &[u8], out: &mut [u8]) -> usize
    ensures { result ≤ length out.new }
{
    let count = out.len().min(text.len() / 2);
    for (place, pair) in out.iter_mut().zip(text.chunks_exact(2)) {
        *place = byte_of(pair);
    }
    count
}

fn byte_of(pair: &[u8]) -> u8 {
    pair.iter()
        .fold(0, |b: u8, c| b.wrapping_mul(16) | digit(*c).unwrap_or(0))
}

// The two digits of a byte.
pub fn pair_of(b: u8) -> [u8; 2] {
    [DIGITS[usize::from(b / 16)], DIGITS[usize::from(b % 16)]]
}
