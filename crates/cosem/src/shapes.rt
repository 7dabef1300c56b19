// The shapes of values that a request carries, each read at the place of its value.
ghost use Rattle.std.specs.Prelude.{◌≡◌, ◌≤◌, drop};
ghost use Rattle.wire.specs.Reading.{number_at, then_field};
ghost use Rattle.model.specs.Selecting.{is_entry_descriptor, is_range_descriptor};
ghost use Rattle.model.specs.Objects.{is_integer};
ghost use Rattle.cosem.specs.Entries.{entries_in};
ghost use Rattle.cosem.specs.Ranges.{clock_in, range_in};

use crate::{Entries, Range};
use model::Clock;

// The entry descriptor that begins at `at` and ends with the APDU.
pub fn entries_at(apdu: &[u8], at: usize) -> Option<Entries>
    ensures { result ≡ entries_in (drop at apdu.now) }
{
    entries_in(rest_of(apdu, at))
}

// The range descriptor that begins at `at` and ends with the APDU.
pub fn range_at(apdu: &[u8], at: usize) -> Option<Range>
    ensures { result ≡ range_in (drop at apdu.now) }
{
    range_in(rest_of(apdu, at))
}

// Whether one integer begins at `at` and ends with the APDU.
pub fn is_integer_at(apdu: &[u8], at: usize) -> bool
    ensures { result ≡ is_integer (drop at apdu.now) }
{
    is_integer(rest_of(apdu, at))
}

// The bytes from `at` to the end; none where `at` is past it.
pub fn rest_of(s: &[u8], at: usize) -> &[u8]
    ensures { result.now ≡ drop at s.now }
{
    if s.len() < at { &s[0..0] } else { &s[at..] }
}

fn is_integer(v: &[u8]) -> bool
    ensures { result ≡ is_integer v.now }
{
    v.len() == 2 && v[0] == 0x0F
}

#[tactic(auto, unfolding(model::specs::Selecting::is_entry_descriptor))]
fn is_entry_descriptor(v: &[u8]) -> bool
    ensures { result ≡ is_entry_descriptor v.now }
{
    v.len() == 18
        && v[0] == 0x02
        && v[1] == 0x04
        && v[2] == 0x06
        && v[7] == 0x06
        && v[12] == 0x12
        && v[15] == 0x12
}

#[tactic(auto, unfolding(crate::specs::Entries::entries_in))]
fn entries_in(v: &[u8]) -> Option<Entries>
    ensures { result ≡ entries_in v.now }
{
    if !is_entry_descriptor(v) {
        return None;
    }
    Some(Entries {
        from: found::<4>(v, 3),
        to: found::<4>(v, 8),
        from_column: found::<2>(v, 13),
        to_column: found::<2>(v, 16),
    })
}

// The number of W bytes at a place; 0 where they are not there.
fn found<const W: usize>(v: &[u8], at: usize) -> u32
    requires { W ≤ 4 }
    ensures { result ≡ then_field (number_at W v.now at) 0 (λ value next. value) }
{
    match wire::number_at::<W>(v, at) {
        Some((value, _)) => value,
        None => 0,
    }
}

#[tactic(auto, unfolding(crate::specs::Ranges::range_in))]
fn range_in(v: &[u8]) -> Option<Range>
    ensures { result ≡ range_in v.now }
{
    if !is_range_descriptor(v) {
        return None;
    }
    let from = clock_in(v, 22);
    let to = clock_in(v, 36);
    Some(Range { from, to })
}

// A structure of four: the restricting object, which is the clock's attribute 2, two octet strings of twelve bytes, no columns.
fn is_range_descriptor(v: &[u8]) -> bool
    ensures { result ≡ is_range_descriptor v.now }
{
    if v.len() != 50 {
        return false;
    }
    let head =
        b"\x02\x04\x02\x04\x12\x00\x08\x09\x06\x00\x00\x01\x00\x00\xFF\x0F\x02\x12\x00\x00\x09\x0C";
    if !wire::same(&v[0..22], head) {
        return false;
    }
    if !wire::same(&v[34..36], b"\x09\x0C") {
        return false;
    }
    wire::same(&v[48..50], b"\x01\x00")
}

// The clock whose twelve bytes stand at `at`.
fn clock_in(v: &[u8], at: usize) -> Clock
    ensures { result ≡ clock_in v.now at }
{
    Clock {
        bytes: wire::array_at(v, at),
    }
}
