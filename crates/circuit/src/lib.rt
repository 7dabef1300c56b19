// The transformations of AES (FIPS 197, 5.1) on bit planes of four blocks, by exclusive ors, ands, shifts and masks of whole words: nothing
// is read from a table, and nothing branches. Lane 16 r + 4 c + b holds the byte in row r and column c of block b.
#![tactic(auto)]

mod halves;
mod turns;

ghost use Rattle.circuit.specs.Layout.{Substituted, RowsShifted, ColumnsMixed};

use halves::{affine_out, into_halves, inverse};
use planes::Planes;
use turns::{double, shifted, turned};

// SubBytes: the substitute of the byte in each lane, by the rule of FIPS 197, the inverse and then the affine map.
pub fn sub_bytes(p: Planes) -> Planes
    ensures { Substituted p result }
{
    affine_out(inverse(into_halves(p)))
}

// ShiftRows: row r of each block turned by r columns.
pub fn shift_rows(p: Planes) -> Planes
    ensures { RowsShifted p result }
{
    p.map(shifted)
}

// MixColumns: each byte doubled, with three times the byte below it in its column and the two below that, round the end.
pub fn mix_columns(p: Planes) -> Planes
    ensures { ColumnsMixed p result }
{
    let below = turned(p, 1);
    let both = p ^ below;
    (double(both) ^ below) ^ turned(both, 2)
}
