// The substitution by halves, in a tower of fields: the byte in each lane is written as two halves, inverted by products and the inverse of
// one half, and written as a byte again, the affine map in the same step. Each line is an exclusive or or an and of whole words.
ghost use Rattle.std.specs.Prelude.{◌≡◌, ℕ, ◌<◌};
ghost use Rattle.std.specs.Int.Bits.{bit_xor};
ghost use Rattle.planes.specs.Lanes.{lane};
ghost use Rattle.sbox.specs.SboxRule.{affine, «inverse» as inverse_of, «times» as times_of};
ghost use Rattle.sbox.specs.Halves.{scaled_square, «norm» as norm_of};
ghost use Rattle.circuit.specs.Layout.{half_at, whole_at};

use planes::Planes;
use std::ops::BitXor;

// A half of the byte in each lane, by its four bits.
#[derive(Clone, Copy)]
pub struct Half {
    pub a: u64,
    pub b: u64,
    pub c: u64,
    pub d: u64,
}

// The byte in each lane, by its halves.
#[derive(Clone, Copy)]
pub struct Halves {
    pub low: Half,
    pub high: Half,
}

// The way in: each byte as its halves.
pub fn into_halves(p: Planes) -> Halves
    ensures { (j : ℕ) → whole_at j result ≡ lane j p }
{
    let s = p.p0 ^ p.p6;
    let t = p.p5 ^ s;
    let u = p.p7 ^ t;
    let v = p.p1 ^ p.p2;
    Halves {
        low: Half {
            a: t,
            b: p.p3 ^ s ^ v,
            c: p.p0 ^ p.p1 ^ p.p3 ^ p.p4 ^ p.p7,
            d: p.p0,
        },
        high: Half {
            a: p.p1 ^ t,
            b: u,
            c: u ^ v,
            d: p.p4 ^ t,
        },
    }
}

// The inverse of each byte, 0 for 0: its halves exchanged, each times the inverse of the norm.
pub fn inverse(h: Halves) -> Halves
    ensures { (j : ℕ) → whole_at j result ≡ inverse_of (whole_at j h) }
{
    let m = h.low;
    let n = h.high;
    let i = inverse_half(norm(m, n));
    Halves {
        low: times(i, n),
        high: times(i, m),
    }
}

// The way out, and the affine map: each byte from its halves, times the matrix of FIPS 197, and {63} added.
pub fn affine_out(h: Halves) -> Planes
    ensures { (j : ℕ) → j < 64 → lane j result ≡ affine (whole_at j h) }
{
    let m = h.low;
    let n = h.high;
    let s = m.c ^ n.a;
    let t = m.a ^ n.b;
    let u = m.b ^ n.d;
    let v = n.c ^ s;
    Planes {
        p0: t ^ n.d ^ 0xffff_ffff_ffff_ffff,
        p1: n.a ^ t ^ 0xffff_ffff_ffff_ffff,
        p2: m.d ^ s ^ u,
        p3: n.b ^ n.d ^ v,
        p4: v,
        p5: u ^ 0xffff_ffff_ffff_ffff,
        p6: m.c ^ n.c ^ 0xffff_ffff_ffff_ffff,
        p7: s,
    }
}

// The norm of the byte whose halves are m and n.
fn norm(m: Half, n: Half) -> Half
    ensures { (j : ℕ) → half_at j result ≡ norm_of (half_at j m) (half_at j n) }
{
    times(m, n) ^ scaled_square(m, n)
}

// What the norm has besides the product: the square of the sum, times a constant.
fn scaled_square(m: Half, n: Half) -> Half
    ensures { (j : ℕ) → half_at j result ≡ scaled_square (bit_xor (half_at j m) (half_at j n)) }
{
    let s = m.a ^ n.a;
    let t = m.b ^ n.b;
    let u = m.c ^ n.c;
    let v = m.d ^ n.d;
    Half {
        a: s ^ t,
        b: t,
        c: t ^ v,
        d: s ^ u,
    }
}

// The sum of halves.
impl BitXor for Half {
    type Output = Half;

    ghost bitxor_gives = { λ m n r. (j : ℕ) → half_at j r ≡ bit_xor (half_at j m) (half_at j n) };

    fn bitxor(self, other: Half) -> Half {
        Half {
            a: self.a ^ other.a,
            b: self.b ^ other.b,
            c: self.c ^ other.c,
            d: self.d ^ other.d,
        }
    }
}

// The product of halves, which is a half again: three products of quarters, and sums of them.
fn times(m: Half, n: Half) -> Half
    ensures { (j : ℕ) → half_at j result ≡ times_of (half_at j m) (half_at j n) }
{
    let f = (m.a ^ m.b) & (n.a ^ n.b);
    let g = (m.c ^ m.d) & (n.c ^ n.d);
    let s = m.a ^ m.c;
    let t = m.b ^ m.d;
    let u = n.a ^ n.c;
    let v = n.b ^ n.d;
    let h = (s ^ t) & (u ^ v);
    let x = h ^ (t & v);
    let y = x ^ (h ^ (s & u));
    Half {
        a: f ^ (m.a & n.a) ^ x,
        b: f ^ (m.b & n.b) ^ y,
        c: g ^ (m.c & n.c) ^ x,
        d: g ^ (m.d & n.d) ^ y,
    }
}

// The inverse of a half; 0 for 0.
fn inverse_half(m: Half) -> Half
    ensures { (j : ℕ) → half_at j result ≡ inverse_of (half_at j m) }
{
    let s = m.a ^ m.c;
    let t = s ^ (m.b ^ m.d);
    let f = (m.a ^ m.b) & (m.c ^ m.d);
    let i = f ^ (m.b & m.d) ^ t;
    let k = f ^ (m.a & m.c) ^ s;
    let g = (i ^ k) & (m.c ^ m.d);
    let h = (i ^ k) & (m.a ^ m.b);
    Half {
        a: g ^ (i & m.c),
        b: g ^ (k & m.d),
        c: h ^ (i & m.a),
        d: h ^ (k & m.b),
    }
}
