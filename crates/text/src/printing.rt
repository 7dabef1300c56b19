// Printing to standard output, or to what stands in its place. What cannot be written is lost.
use crate::fields::field;

pub fn print(printer: &impl Print, s: &[u8]) {
    let _ = printer.write_all(s);
}

// What stands before the outcome of a line: its name, which is field 1; a line that is empty or begins with `#` as it is, and so
// one that begins with a NUL.
pub fn print_name(printer: &impl Print, line: &[u8]) {
    match line {
        [] | [0 | b'#', ..] => print(printer, line),
        _ => {
            print(printer, field(line, 1));
            print(printer, b": ");
        }
    }
}
