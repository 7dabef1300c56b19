// Readers: each public one says what stands at `at`, for every slice and every position.
ghost use Rattle.std.specs.Prelude.{◌≡◌, ◌≤◌, Option, ℕ, replicate};
ghost use Rattle.wire.specs.Reading.{at_least, expected, filled, length_at, number_at, same_bytes, skipped};

// Whether two slices hold the same bytes.
#[tactic(auto, unfolding(crate::specs::Reading::same_bytes))]
pub fn same(a: &[u8], b: &[u8]) -> bool
    ensures { result ≡ same_bytes a.now b.now }
{
    a == b
}

// The position after `n` bytes of any value.
#[tactic(auto, unfolding(crate::specs::Reading::skipped))]
pub fn skip_at(s: &[u8], at: usize, n: usize) -> Option<usize>
    ensures { result ≡ skipped s.now at n }
{
    let next = at.checked_add(n)?;
    if next <= s.len() { Some(next) } else { None }
}

// The position after the bytes `b`, where they stand at `at`.
#[tactic(auto, unfolding(crate::specs::Reading::skipped, crate::specs::Reading::expected))]
pub fn expect_at(s: &[u8], at: usize, b: &[u8]) -> Option<usize>
    ensures { result ≡ expected s.now at b.now }
{
    let next = skip_at(s, at, b.len())?;
    if same(&s[at..next], b) {
        Some(next)
    } else {
        None
    }
}

// The bytes at a position, as many as the array has; zeros where there are fewer.
#[tactic(auto, unfolding(crate::specs::Reading::filled))]
pub fn array_at<const N: usize>(s: &[u8], at: usize) -> [u8; N]
    ensures { result ≡ filled s.now at (replicate N 0) }
{
    let Some(rest) = s.get(at..) else {
        return [0u8; N];
    };
    let Some(bytes) = rest.first_chunk() else {
        return [0u8; N];
    };
    *bytes
}

// A number of W bytes, high byte first.
#[tactic(auto, unfolding(crate::specs::Reading::skipped, crate::specs::Reading::number_at))]
pub fn number_at<const W: usize>(s: &[u8], at: usize) -> Option<(u32, usize)>
    requires { W ≤ 4 }
    ensures { result ≡ number_at W s.now at }
{
    let next = skip_at(s, at, W)?;
    let mut number: u32 = 0;
    for &b in &s[at..next] {
        number = number * 256 + b as u32;
    }
    Some((number, next))
}

// A length in the shortest form, and in no other.
#[tactic(auto, unfolding(crate::specs::Reading::length_at))]
pub fn length_at(s: &[u8], at: usize) -> Option<(u32, usize)>
    ensures { result ≡ length_at s.now at }
{
    let (first, next) = number_at::<1>(s, at)?;
    match first {
        0..=127 => Some((first, next)),
        0x81 => at_least(128, number_at::<1>(s, next)?),
        0x82 => at_least(256, number_at::<2>(s, next)?),
        _ => None,
    }
}

// A number that was read, where it is at least `k`.
fn at_least(k: u32, read: (u32, usize)) -> Option<(u32, usize)>
    ensures { result ≡ at_least k (Some read) }
{
    if k <= read.0 { Some(read) } else { None }
}
