// Bit slicing: sixty-four bytes as eight planes, words of which word i holds bit i of every byte. What is done to the words bit by
// bit is done to each byte. A byte's place is its lane. No function here reads memory or branches by what the bytes are.
#![tactic(auto)]

mod moves;

ghost use Rattle.std.specs.Prelude.{◌≡◌, ℕ, ◌/◌, ◌*◌, ◌<◌};
ghost use Rattle.std.specs.Int.Bits.{bit_xor};
ghost use Rattle.planes.specs.Lanes.{words_of, planes_of, EachWord, lane, byte_of, bytes8};
ghost use Rattle.planes.specs.Moves.{Transposed, spread_byte};

use moves::{by_fours, by_ones, by_twos, pair_of, thrice_more};
use std::ops::BitXor;

// Eight words: the planes of 64 bytes, or 64 bytes themselves, eight in a word.
#[derive(Clone, Copy)]
pub struct Planes {
    pub p0: u64,
    pub p1: u64,
    pub p2: u64,
    pub p3: u64,
    pub p4: u64,
    pub p5: u64,
    pub p6: u64,
    pub p7: u64,
}

// The eight words of planes, and planes of eight words.
impl From<Planes> for [u64; 8] {
    ghost from_gives = { λ p w. w ≡ words_of p };

    fn from(p: Planes) -> [u64; 8] {
        [p.p0, p.p1, p.p2, p.p3, p.p4, p.p5, p.p6, p.p7]
    }
}

impl From<[u64; 8]> for Planes {
    ghost from_gives = { λ w p. p ≡ planes_of w };

    fn from(w: [u64; 8]) -> Planes {
        let [p0, p1, p2, p3, p4, p5, p6, p7] = w;
        Planes {
            p0,
            p1,
            p2,
            p3,
            p4,
            p5,
            p6,
            p7,
        }
    }
}

// The exclusive or of the bytes in each lane.
impl BitXor for Planes {
    type Output = Planes;

    ghost bitxor_gives = { λ p q r. (j : ℕ) → lane j r ≡ bit_xor (lane j p) (lane j q) };

    fn bitxor(self, other: Planes) -> Planes {
        Planes {
            p0: self.p0 ^ other.p0,
            p1: self.p1 ^ other.p1,
            p2: self.p2 ^ other.p2,
            p3: self.p3 ^ other.p3,
            p4: self.p4 ^ other.p4,
            p5: self.p5 ^ other.p5,
            p6: self.p6 ^ other.p6,
            p7: self.p7 ^ other.p7,
        }
    }
}

impl Planes {
    // Planes of what a function gives of each word.
    pub fn map<F: Fn(u64) -> u64>(self, f: F) -> Planes
        requires { F.IsAlwaysCallable f }
        ensures { EachWord (λ x y. F.post f x y) self result }
    {
        Planes {
            p0: f(self.p0),
            p1: f(self.p1),
            p2: f(self.p2),
            p3: f(self.p3),
            p4: f(self.p4),
            p5: f(self.p5),
            p6: f(self.p6),
            p7: f(self.p7),
        }
    }
}

// Bytes to planes, and planes to bytes: byte k of word m and lane 8 k + m change places.
pub fn transpose(w: Planes) -> Planes
    ensures { Transposed w result }
{
    by_fours(by_twos(by_ones(w)))
}

// Two words of bytes as planes: byte k of e in lane 8 k, byte k of o in lane 8 k + 4, and 0 in the others.
pub fn spread(e: u64, o: u64) -> Planes
    ensures { (j : ℕ) → j < 64 → lane j result ≡ spread_byte e o j }
{
    Planes {
        p0: pair_of(e, o),
        p1: pair_of(e >> 1, o >> 1),
        p2: pair_of(e >> 2, o >> 2),
        p3: pair_of(e >> 3, o >> 3),
        p4: pair_of(e >> 4, o >> 4),
        p5: pair_of(e >> 5, o >> 5),
        p6: pair_of(e >> 6, o >> 6),
        p7: pair_of(e >> 7, o >> 7),
    }
}

// The bytes in the lanes 4 i, each in the four lanes from there on.
pub fn four_times(p: Planes) -> Planes
    ensures { (j : ℕ) → j < 64 → lane j result ≡ lane (j / 4 * 4) p }
{
    p.map(thrice_more)
}

// The word of the bytes in the lanes 8 k.
pub fn gather(p: Planes) -> u64
    ensures { (k : ℕ) → k < 8 → byte_of k result ≡ lane (k * 8) p }
{
    let a = (p.p0 & 0x0101_0101_0101_0101) | ((p.p1 & 0x0101_0101_0101_0101) << 1);
    let b = ((p.p2 & 0x0101_0101_0101_0101) << 2) | ((p.p3 & 0x0101_0101_0101_0101) << 3);
    let c = ((p.p4 & 0x0101_0101_0101_0101) << 4) | ((p.p5 & 0x0101_0101_0101_0101) << 5);
    let d = ((p.p6 & 0x0101_0101_0101_0101) << 6) | ((p.p7 & 0x0101_0101_0101_0101) << 7);
    (a | b) | (c | d)
}

// Eight bytes as a word, the first the lowest.
pub fn pack(b: [u8; 8]) -> u64
    ensures { bytes8 result ≡ b }
{
    u64::from_le_bytes(b)
}

// The eight bytes of a word, the lowest first.
pub fn unpack(x: u64) -> [u8; 8]
    ensures { result ≡ bytes8 x }
{
    x.to_le_bytes()
}
