// Rows of lanes rotated within each plane, and bytes doubled.
ghost use Rattle.std.specs.Prelude.{◌≡◌, ℕ, ◌+◌, ◌*◌, ◌%◌, ◌<◌};
ghost use Rattle.planes.specs.Bits.{bit_at};
ghost use Rattle.planes.specs.Lanes.{lane};
ghost use Rattle.sbox.specs.Field.{xtime};
ghost use Rattle.circuit.specs.Layout.{shifted_from};

use planes::Planes;

// Row r of a plane turned by r columns: rows 1 and 3 by one, then rows 2 and 3 by two.
pub fn shifted(x: u64) -> u64
    ensures { (j : ℕ) → j < 64 → bit_at j result ≡ bit_at (shifted_from j) x }
{
    let y = ((x >> 4) & 0x0fff_0000_0fff_0000)
        | ((x << 12) & 0xf000_0000_f000_0000)
        | (x & 0x0000_ffff_0000_ffff);
    ((y >> 8) & 0x00ff_00ff_0000_0000) | ((y << 8) & 0xff00_ff00_0000_0000) | (y & 0xffff_ffff)
}

// Each row takes the place of the one so many rows above it.
pub fn turned(p: Planes, rows: u32) -> Planes
    requires { (0 < rows) × (rows < 4) }
    ensures { (j : ℕ) → j < 64 → lane j result ≡ lane ((j + rows * 16) % 64) p }
{
    p.map(
        |x: u64| -> u64
            requires { (0 < rows) × (rows < 4) }
            ensures { (j : ℕ) → j < 64 → bit_at j result ≡ bit_at ((j + rows * 16) % 64) x }
        { x.rotate_right(rows * 16) },
    )
}

// The product by x of the byte in each lane.
pub fn double(p: Planes) -> Planes
    ensures { (j : ℕ) → lane j result ≡ xtime (lane j p) }
{
    Planes {
        p0: p.p7,
        p1: p.p0 ^ p.p7,
        p2: p.p1,
        p3: p.p2 ^ p.p7,
        p4: p.p3 ^ p.p7,
        p5: p.p4,
        p6: p.p5,
        p7: p.p6,
    }
}
