// HDLC frames from lines of standard input: what a received frame is read as, and the replies. A line has a letter, a name and
// fields, with a bar between them; what it comes to is printed after its name. Lines that are empty or begin with `#` are headings.
#![tactic(auto)]

mod read;
mod replies;

use std::io;

fn main(rt: HostRuntime) {
    let mut input = [0u8; 65536];
    let n = text::read_full(&mut rt.stdin(), &mut input);
    text::answer_lines(&rt, &input[..n], |line| outcome(&rt, line));
}

// R: a received frame. A reply, by the source of the frame that is answered: U, UA; D, DM; F, FRMR, by the control that is
// answered and the test that failed; A, an APDU.
fn outcome(printer: &impl Print, s: &[u8]) -> io::Result<()> {
    // A `match`, since each letter has other fields: a table of closures would be no plainer.
    match text::letter(s) {
        b'R' => read::frame(printer, s),
        b'U' => replies::ua(printer, s),
        b'D' => replies::dm(printer, s),
        b'F' => replies::frmr(printer, s),
        b'A' => replies::data(printer, s),
        _ => Ok(()),
    }
}
