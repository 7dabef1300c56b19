// Values of A-XDR: where one ends. The value reader and the reader of its elements call each other; the remaining depth and
// the number of elements fall. specs/Values says what is a value; proofs/ValueLaws has the laws for callers.
#![tactic(auto)]

ghost use Rattle.std.specs.Prelude.{◌≡◌};
ghost use Rattle.axdr.specs.Values.{elements_end, layout_of, octets_end, value_end, value_within};

// What follows a type tag, the "kind" of document 01.
#[derive(Clone, Copy)]
pub enum Layout {
    // so many bytes
    Fixed(usize),
    // a length, then as many bytes
    Octets,
    // a count, then as many values
    Elements,
}

// The greatest depth of a value.
const GREATEST_DEPTH: usize = 4;

// The position after the value at `at`.
pub fn value_end(s: &[u8], at: usize) -> Option<usize>
    ensures { result ≡ value_end s.now at }
{
    value_within(s, at, GREATEST_DEPTH)
}

// The position after the value at `at`, where its depth is at most `depth`.
#[cycle(elements_end_value_within)]
fn value_within(s: &[u8], at: usize, depth: usize) -> Option<usize>
    ensures { result ≡ value_within depth s.now at }
{
    if depth == 0 {
        return None;
    }
    let (tag, next) = wire::number_at::<1>(s, at)?;
    match layout_of(tag)? {
        Layout::Fixed(n) => wire::skip_at(s, next, n),
        Layout::Octets => octets_end(s, next),
        Layout::Elements => {
            let (count, first) = wire::length_at(s, next)?;
            elements_end(s, first, depth - 1, count)
        }
    }
}

// The position after `count` values in a row, each of which has at most `depth`.
#[cycle(elements_end_value_within)]
fn elements_end(s: &[u8], at: usize, depth: usize, count: u32) -> Option<usize>
    ensures { result ≡ elements_end (value_within depth s.now) count at }
{
    let mut next = at;
    for _ in 0..count {
        next = value_within(s, next, depth)?;
    }
    Some(next)
}

// The position after a length and as many bytes.
fn octets_end(s: &[u8], at: usize) -> Option<usize>
    ensures { result ≡ octets_end s.now at }
{
    let (n, next) = wire::length_at(s, at)?;
    wire::skip_at(s, next, n as usize)
}

// What follows a type tag; none where it is not one of 01's kinds.
#[tactic(auto, unfolding(crate::specs::Values::layout_of))]
fn layout_of(tag: u32) -> Option<Layout>
    ensures { result ≡ layout_of tag }
{
    let layout = match tag {
        0x00 => Layout::Fixed(0),
        0x01 | 0x02 => Layout::Elements,
        0x06 => Layout::Fixed(4),
        0x09 | 0x0A => Layout::Octets,
        0x03 | 0x0F | 0x11 | 0x16 => Layout::Fixed(1),
        0x12 => Layout::Fixed(2),
        _ => return None,
    };
    Some(layout)
}
