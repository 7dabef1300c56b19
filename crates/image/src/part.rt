// What a part of an image is to the code: a type with a layout; and what stands at a place read as a value of it. As many parts as an
// array has stand one after the other.
ghost use Rattle.std.specs.Prelude.{◌≡◌, ℕ, ◌+◌, ◌*◌, ◌<◌, ◌≤◌, drop, length, replicate};
ghost use Rattle.image.specs.Codec.{Codec, Got, many};
ghost use Rattle.image.specs.Layout.{held_part};
ghost use Rattle.image.specs.Lists.{Firsts};

use store::Held;

pub trait Part: Copy {
    ghost part: { Codec Self };

    ghost SIZE: { ℕ };

    // How many bytes it takes.
    const SIZE: usize;

    // The value at a place of any bytes; that of zeros where too few stand there.
    fn read(s: &[u8], at: usize) -> Self
        ensures there { at + SIZE ≤ length s.now → Got part s.now at result }
        ensures blank { length s.now < at + SIZE → Got part (replicate SIZE 0) 0 result };

    ghost sized: { part.size ≡ SIZE };
}

// A part that is read where there is room. Within the crate: who reads knows that there is.
pub trait Readable: Part {
    // The value at a place where there are bytes enough for it.
    fn read_at(s: &[u8], at: usize) -> Self
        requires { at + Self.SIZE ≤ length s.now }
        ensures { Got Self.part s.now at result };
}

// The bytes from a place on, or the zeros that are lent where fewer than these stand there. `enough` follows from the two before it,
// and is what reading asks for.
pub fn bytes_or<'a>(s: &'a [u8], at: usize, zeros: &'a [u8]) -> &'a [u8]
    ensures there { at + length zeros.now ≤ length s.now → result.now ≡ drop at s.now }
    ensures blank { length s.now < at + length zeros.now → result.now ≡ zeros.now }
    ensures enough { length zeros.now ≤ length result.now }
{
    match s.get(at..) {
        Some(rest) if zeros.len() <= rest.len() => rest,
        _ => zeros,
    }
}

pub fn each_at<T: Readable, const N: usize>(s: &[u8], at: usize, blank: T) -> [T; N]
    requires { at + N * T.SIZE ≤ length s.now }
    ensures { Got (many N T.part) s.now at result }
{
    firsts_at(s, at, N, blank)
}

// A count, and then as many parts as there are places.
pub fn held_at<T: Readable, const N: usize>(s: &[u8], at: usize, blank: T) -> Held<T, N>
    requires { at + 8 + N * T.SIZE ≤ length s.now }
    ensures { Got (held_part N T.part) s.now at result }
{
    Held {
        count: usize::read_at(s, at),
        items: each_at(s, at + 8, blank),
    }
}

// An array that begins with so many parts and is blank behind them.
pub fn firsts_at<T: Readable, const N: usize>(s: &[u8], at: usize, count: usize, blank: T) -> [T; N]
    requires fits { count ≤ N }
    requires room { at + count * T.SIZE ≤ length s.now }
    ensures { Firsts T.part N count s.now at result }
{
    let mut items = [blank; N];
    fill(s, at, count, &mut items);
    items
}

// So many parts, each read into its place of an array.
#[inline(never)]
fn fill<T: Readable>(s: &[u8], at: usize, count: usize, items: &mut [T])
    requires fits { count ≤ length items.old }
    requires room { at + count * T.SIZE ≤ length s.now }
    ensures { Firsts T.part (length items.old) count s.now at items.new }
{
    for i in 0..count {
        items[i] = T::read_at(s, at + i * T::SIZE);
    }
}
