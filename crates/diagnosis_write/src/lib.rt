// The line that tells of a call, written into a lent buffer: "the refusal number, the test that failed", and its place. What the
// line is stands in specs/Lines of the crate call_tests; specs/ here has how long it can become. The names stand in `test_names`.
#![tactic(auto)]

ghost use Rattle.std.specs.Prelude.{◌++◌, ◌+◌, ◌≤◌, length, codes};
ghost use Rattle.wire.specs.Wrote.{Wrote};
ghost use Rattle.call_tests.specs.Lines.{name_found, decimal, place_text, spelled};
ghost use Rattle.diagnosis_write.specs.Lengths.{longest_name, longest_place, longest_line};

use call_tests::Finding;

mod test_names;

// The most letters that a line has: three digits, a space, a name, a space, twenty digits.
pub const LONGEST_LINE: usize = 51;

// Writes the line of a finding: its number, its name and its place, with one space between.
// By `wire_write` and not by `write!`: std says what that writes for a `String` alone, which is heap.
pub fn put_line(
    out: &mut [u8],
    at: usize,
    refusal: u8,
    finding: Finding,
    place: Option<usize>,
) -> usize
    requires { at + longest_line ≤ length out.old }
    ensures { Wrote out.old at out.new result (spelled refusal (name_found finding) place) }
{
    let name = put_number(out, at, refusal);
    put_found(out, name, finding, place)
}

// A refusal number, and a space.
fn put_number(out: &mut [u8], at: usize, refusal: u8) -> usize
    requires { at + longest_place + 1 ≤ length out.old }
    ensures { Wrote out.old at out.new result (decimal refusal ++ codes " ") }
{
    let space = put_decimal(out, at, refusal as u64);
    wire_write::put(out, space, b' ')
}

// The name of what was found, a space, and its place.
fn put_found(out: &mut [u8], at: usize, finding: Finding, place: Option<usize>) -> usize
    requires { at + longest_name + 1 + longest_place ≤ length out.old }
    ensures { Wrote out.old at out.new result (name_found finding ++ (codes " " ++ place_text place)) }
{
    let space = put_name(out, at, finding);
    let last = wire_write::put(out, space, b' ');
    put_place(out, last, place)
}

// A number, in as few decimal digits as hold it.
fn put_decimal(out: &mut [u8], at: usize, n: u64) -> usize
    requires { at + longest_place ≤ length out.old }
    ensures { Wrote out.old at out.new result (decimal n) }
{
    let mut digits = [0u8; 20];
    let k = io::decimal(n, &mut digits);
    wire_write::put_all(out, at, &digits[..k])
}

// The name of the test that failed, or that none did.
fn put_name(out: &mut [u8], at: usize, finding: Finding) -> usize
    requires { at + longest_name ≤ length out.old }
    ensures wrote { Wrote out.old at out.new result (name_found finding) }
    ensures upper_bound { result ≤ at + longest_name }
{
    let name = test_names::name_found(finding);
    wire_write::put_all(out, at, name.as_bytes())
}

// Where the failing field begins, or a dash.
fn put_place(out: &mut [u8], at: usize, place: Option<usize>) -> usize
    requires { at + longest_place ≤ length out.old }
    ensures { Wrote out.old at out.new result (place_text place) }
{
    match place {
        Some(n) => put_decimal(out, at, n as u64),
        None => wire_write::put(out, at, b'-'),
    }
}
