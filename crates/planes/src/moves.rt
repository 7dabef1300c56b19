// Bits moved within words and between them.
ghost use Rattle.std.specs.Prelude.{◌≡◌, ℕ, ◌/◌, ◌*◌, ◌<◌};
ghost use Rattle.planes.specs.Bits.{bit_at};
ghost use Rattle.planes.specs.Moves.{Exchanged, pair_bit};

use super::Planes;

// Three functions, by_ones, by_twos and by_fours, and not one by a number: each pairs other words, and one would have to look for them.

// Single bits exchanged, between words 1 apart.
pub fn by_ones(w: Planes) -> Planes
    ensures { Exchanged 1 w result }
{
    Planes {
        p0: (w.p0 & 0x5555_5555_5555_5555) | ((w.p1 & 0x5555_5555_5555_5555) << 1),
        p1: ((w.p0 >> 1) & 0x5555_5555_5555_5555) | (w.p1 & 0xaaaa_aaaa_aaaa_aaaa),
        p2: (w.p2 & 0x5555_5555_5555_5555) | ((w.p3 & 0x5555_5555_5555_5555) << 1),
        p3: ((w.p2 >> 1) & 0x5555_5555_5555_5555) | (w.p3 & 0xaaaa_aaaa_aaaa_aaaa),
        p4: (w.p4 & 0x5555_5555_5555_5555) | ((w.p5 & 0x5555_5555_5555_5555) << 1),
        p5: ((w.p4 >> 1) & 0x5555_5555_5555_5555) | (w.p5 & 0xaaaa_aaaa_aaaa_aaaa),
        p6: (w.p6 & 0x5555_5555_5555_5555) | ((w.p7 & 0x5555_5555_5555_5555) << 1),
        p7: ((w.p6 >> 1) & 0x5555_5555_5555_5555) | (w.p7 & 0xaaaa_aaaa_aaaa_aaaa),
    }
}

// Pairs of bits exchanged, between words 2 apart.
pub fn by_twos(w: Planes) -> Planes
    ensures { Exchanged 2 w result }
{
    Planes {
        p0: (w.p0 & 0x3333_3333_3333_3333) | ((w.p2 & 0x3333_3333_3333_3333) << 2),
        p1: (w.p1 & 0x3333_3333_3333_3333) | ((w.p3 & 0x3333_3333_3333_3333) << 2),
        p2: ((w.p0 >> 2) & 0x3333_3333_3333_3333) | (w.p2 & 0xcccc_cccc_cccc_cccc),
        p3: ((w.p1 >> 2) & 0x3333_3333_3333_3333) | (w.p3 & 0xcccc_cccc_cccc_cccc),
        p4: (w.p4 & 0x3333_3333_3333_3333) | ((w.p6 & 0x3333_3333_3333_3333) << 2),
        p5: (w.p5 & 0x3333_3333_3333_3333) | ((w.p7 & 0x3333_3333_3333_3333) << 2),
        p6: ((w.p4 >> 2) & 0x3333_3333_3333_3333) | (w.p6 & 0xcccc_cccc_cccc_cccc),
        p7: ((w.p5 >> 2) & 0x3333_3333_3333_3333) | (w.p7 & 0xcccc_cccc_cccc_cccc),
    }
}

// Halves of a byte exchanged, between words 4 apart.
pub fn by_fours(w: Planes) -> Planes
    ensures { Exchanged 4 w result }
{
    Planes {
        p0: (w.p0 & 0x0f0f_0f0f_0f0f_0f0f) | ((w.p4 & 0x0f0f_0f0f_0f0f_0f0f) << 4),
        p1: (w.p1 & 0x0f0f_0f0f_0f0f_0f0f) | ((w.p5 & 0x0f0f_0f0f_0f0f_0f0f) << 4),
        p2: (w.p2 & 0x0f0f_0f0f_0f0f_0f0f) | ((w.p6 & 0x0f0f_0f0f_0f0f_0f0f) << 4),
        p3: (w.p3 & 0x0f0f_0f0f_0f0f_0f0f) | ((w.p7 & 0x0f0f_0f0f_0f0f_0f0f) << 4),
        p4: ((w.p0 >> 4) & 0x0f0f_0f0f_0f0f_0f0f) | (w.p4 & 0xf0f0_f0f0_f0f0_f0f0),
        p5: ((w.p1 >> 4) & 0x0f0f_0f0f_0f0f_0f0f) | (w.p5 & 0xf0f0_f0f0_f0f0_f0f0),
        p6: ((w.p2 >> 4) & 0x0f0f_0f0f_0f0f_0f0f) | (w.p6 & 0xf0f0_f0f0_f0f0_f0f0),
        p7: ((w.p3 >> 4) & 0x0f0f_0f0f_0f0f_0f0f) | (w.p7 & 0xf0f0_f0f0_f0f0_f0f0),
    }
}

// The lowest bit of each byte of e, and four places above it that of the same byte of o; the other bits are 0.
pub fn pair_of(e: u64, o: u64) -> u64
    ensures { (j : ℕ) → j < 64 → bit_at j result ≡ pair_bit e o j }
{
    (e & 0x0101_0101_0101_0101) | ((o & 0x0101_0101_0101_0101) << 4)
}

// Every fourth bit, in its own place and in the three above it.
pub fn thrice_more(x: u64) -> u64
    ensures { (j : ℕ) → j < 64 → bit_at j result ≡ bit_at (j / 4 * 4) x }
{
    let m = x & 0x1111_1111_1111_1111;
    let t = m | (m << 1);
    t | (t << 2)
}
