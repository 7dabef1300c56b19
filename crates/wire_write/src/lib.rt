// Bytes written into lent slices. A writer puts its bytes from `at` on, leaves every other byte as it was, and gives the place
// after them; it requires room for its bytes, and nothing else but a length that two bytes can hold. What writing means stands
// in specs/ of the crate wire; proofs/ has the laws for callers.
#![tactic(auto)]

ghost use Rattle.std.specs.Prelude.{◌≡◌, [], ◌∷◌, ◌+◌, ◌≤◌, drop, length, take};
ghost use Rattle.wire.specs.Wrote.{Wrote, WroteArray};
ghost use Rattle.wire.specs.Numbers.{high_first, low_first, length_field};

// One byte.
pub fn put(out: &mut [u8], at: usize, b: u8) -> usize
    requires { at + 1 ≤ length out.old }
    ensures { Wrote out.old at out.new result (b ∷ []) }
{
    out[at] = b;
    at + 1
}

// The low W bytes of a number, high byte first.
pub fn put_number<const W: usize>(out: &mut [u8], at: usize, v: u32) -> usize
    requires { (W ≤ 4) × (at + W ≤ length out.old) }
    ensures { Wrote out.old at out.new result (high_first W v) }
{
    put_all(out, at, &v.to_be_bytes()[4 - W..])
}

// A number of two bytes, low byte first.
pub fn put_u16_low_first(out: &mut [u8], at: usize, v: u16) -> usize
    requires { at + 2 ≤ length out.old }
    ensures { Wrote out.old at out.new result (low_first 2 v) }
{
    put_all(out, at, &v.to_le_bytes())
}

// All bytes of a slice.
pub fn put_all(out: &mut [u8], at: usize, s: &[u8]) -> usize
    requires { at + length s.now ≤ length out.old }
    ensures { Wrote out.old at out.new result s.now }
{
    for (i, &b) in s.iter().enumerate() {
        out[at + i] = b;
    }
    at + s.len()
}

// The `n` bytes that stand at `from`, moved down to `to`. Where the two are one place, the bytes stand there already. By places: the two
// stretches may overlap, and std moves such by memmove, which the firmware has not.
pub fn move_down(out: &mut [u8], from: usize, to: usize, n: usize) -> usize
    requires { (to ≤ from) × (from + n ≤ length out.old) }
    ensures { Wrote out.old to out.new result (take n (drop from out.old)) }
{
    if to == from {
        return to + n;
    }
    for i in 0..n {
        out[to + i] = out[from + i];
    }
    to + n
}

// All bytes of an array, which may be a field of a struct.
#[tactic(auto, using(crate::proofs::WroteLaws::sized))]
pub fn put_array<const N: usize>(out: &mut [u8], at: usize, s: &[u8; N]) -> usize
    requires { at + N ≤ length out.old }
    ensures { WroteArray N out.old at out.new result s.now }
{
    put_all(out, at, s)
}

// A length in the shortest form.
#[tactic(auto, using(crate::proofs::WroteLaws::then), unfolding(wire::specs::Numbers::length_field))]
pub fn put_length(out: &mut [u8], at: usize, n: usize) -> usize
    requires { (n ≤ 65535) × (at + length (length_field n) ≤ length out.old) }
    ensures { Wrote out.old at out.new result (length_field n) }
{
    match n {
        0..=127 => put(out, at, n as u8),
        128..=255 => put_all(out, at, &[0x81, n as u8]),
        _ => {
            let two = put(out, at, 0x82);
            put_number::<2>(out, two, n as u32)
        }
    }
}

// How many bytes the length field of `n` takes.
#[tactic(auto, unfolding(wire::specs::Numbers::length_field))]
pub fn length_size(n: usize) -> usize
    ensures { result ≡ length (length_field n) }
{
    match n {
        0..=127 => 1,
        128..=255 => 2,
        _ => 3,
    }
}
