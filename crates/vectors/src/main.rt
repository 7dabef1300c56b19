// Checks, lengths, requests, associations and envelopes from lines of standard input. A line has a letter, a name and fields,
// with a bar between them; what it comes to is printed after its name. Lines that are empty or begin with `#` are headings. Each
// module says what its letters stand for, and what the fields after the name are.
#![tactic(auto)]

mod associations;
mod changes;
mod checks;
mod envelopes;
mod requests;
mod written;

use std::io;

// The most bytes that a field may have.
pub const LONGEST: usize = 300;

fn main(rt: HostRuntime) {
    let mut input = [0u8; 65536];
    let n = text::read_full(&mut rt.stdin(), &mut input);
    text::answer_lines(&rt, &input[..n], |line| outcome(&rt, line));
}

// By the line, and by the bytes of the field after its name.
fn outcome(printer: &impl Print, s: &[u8]) -> io::Result<()> {
    let mut room = [0u8; LONGEST];
    let m = text::bytes_in(s, 2, &mut room);
    // A `match`, since each letter has other fields: a table of closures would be no plainer.
    match text::letter(s) {
        b'C' => checks::number(printer, m),
        b'F' => checks::in_frame(printer, m),
        b'L' => checks::length(printer, s),
        b'G' => requests::get(printer, m),
        b'A' => requests::action(printer, m),
        b'T' => requests::tag(printer, m),
        b'R' => requests::release(printer, m),
        b'V' => requests::value(printer, m),
        b'D' => requests::entries(printer, m),
        b'Y' => requests::released(printer),
        b'X' => requests::exceptions(printer),
        b'Q' => associations::aarq(printer, s, m),
        b'I' => associations::request(printer, m),
        b'S' => associations::agreed(printer, s),
        b'P' => associations::accepted_plain(printer, s),
        b'H' => associations::accepted_head(printer, s),
        b'N' => associations::response(printer, s),
        b'J' => associations::rejected(printer, s),
        b'O' => envelopes::open(printer, s, m),
        b'W' => envelopes::admit(printer, s, m),
        b'E' => envelopes::close(printer, s, m),
        b'Z' => envelopes::answer(printer, s, m),
        b'M' => envelopes::made(printer, s),
        b'K' => envelopes::tested(printer, s, m),
        b'B' => envelopes::window(printer, s),
        b'q' => changes::places(printer, m, |changed| associations::is_aarq(s, changed)),
        b'i' => changes::places(printer, m, |changed| associations::is_request(changed)),
        b'o' => changes::places(printer, m, |changed| envelopes::is_opened(s, changed)),
        _ => Ok(()),
    }
}
