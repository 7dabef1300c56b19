// Parts of a slice, for every length; and whether its bytes have one value.
ghost use Rattle.std.specs.Prelude.{◌≡◌, ◌≤◌, length, take, drop};

// The first `n` bytes, or all where there are fewer.
pub fn first(s: &[u8], n: usize) -> &[u8]
    ensures bytes { result.now ≡ take n s.now }
    ensures count { (length result.now ≤ n) × (length result.now ≤ length s.now) }
{
    s.get(..n).unwrap_or(s)
}

// The bytes after the first `n`.
pub fn after(s: &[u8], n: usize) -> &[u8]
    ensures bytes { result.now ≡ drop n s.now }
    ensures count { length result.now ≤ length s.now }
{
    s.get(n..).unwrap_or(b"")
}

// The bytes from one place to another.
pub fn between(s: &[u8], from: usize, to: usize) -> &[u8] {
    after(first(s, to), from)
}

// Whether all bytes have this value. Every byte is looked at, without a branch at each: the processor does many at once.
pub fn all_are(s: &[u8], b: u8) -> bool {
    s.iter().fold(0, |differing, x| differing | (x ^ b)) == 0
}
