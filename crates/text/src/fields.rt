// Fields of a line, with a bar between them: the first is field 0. Where a line has fewer, the rest are empty. A field is its
// characters, bytes in hexadecimal digits, or a decimal number.
ghost use Rattle.std.specs.Prelude.{◌≤◌, length};

use crate::hexadecimal::{digit, digits};

// The first character of a line, or 0: an Option would be no plainer, since 0 is a letter that no program knows, and goes as those.
pub fn letter(line: &[u8]) -> u8 {
    line.first().copied().unwrap_or(0)
}

// The characters of field `k`.
pub fn field(line: &[u8], k: usize) -> &[u8] {
    line.split(|c| *c == b'|').nth(k).unwrap_or(b"")
}

// The bytes of field `k`, as many as `out` has room for, and how many they are.
pub fn bytes(line: &[u8], k: usize, out: &mut [u8]) -> usize
    ensures { result ≤ length out.new }
{
    digits(field(line, k), out)
}

// The first byte of field `k`; 0 where it has none, and so in the arrays below.
pub fn byte(line: &[u8], k: usize) -> u8 {
    let [b] = array::<1>(line, k);
    b
}

// The first bytes of field `k`.
pub fn array<const N: usize>(line: &[u8], k: usize) -> [u8; N] {
    let mut b = [0; N];
    bytes(line, k, &mut b);
    b
}

// The decimal number in field `k`, modulo 2^32. A character that is no digit counts as 16.
pub fn number(line: &[u8], k: usize) -> u32 {
    field(line, k).iter().fold(0, with_digit)
}

fn with_digit(n: u32, c: &u8) -> u32 {
    n.wrapping_mul(10)
        .wrapping_add(u32::from(digit(*c).unwrap_or(16)))
}
