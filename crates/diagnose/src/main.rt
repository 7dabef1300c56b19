// The program for field staff and the key holder: why was the meter silent? It reads the lines of a script from a file, or from
// standard input, and prints one line about the last frame in them: the number of the refusal, the test that failed first, and where.
// What it cannot take gets a line on standard error, and then none on standard output. docs/DIAGNOSE.md has the format.
#![tactic(auto)]

mod complaint;
mod telling;

use complaint::Complaint;
use diagnosis::Explained;
use script_calls::session;
use script_text::answer::Answers;
use std::env::FillError;
use std::fs::File;
use std::io::{ErrorKind, Read};
use std::rt::{Env, Files};
use std::{fmt, io, str};
use telling::Telling;

fn main(rt: HostRuntime) {
    if let Err(complaint) = run(&rt, &mut rt.stdin()) {
        let _ = eprintln!(rt; "diagnose: {complaint}");
    }
}

fn run<R: Env + Files + Print>(rt: &R, stdin: &mut impl Read) -> Result<(), Complaint> {
    if has_argument(rt, 2) {
        return Err(Complaint::Usage);
    }
    if has_argument(rt, 1) {
        let mut file = opened(rt).map_err(Complaint::Unopened)?;
        return diagnose(rt, &mut file);
    }
    diagnose(rt, stdin)
}

// Whether the program was started with an argument at this place; its name is the one at 0.
fn has_argument(env: &impl Env, i: usize) -> bool {
    !matches!(env.arg(i, &mut []), Err(FillError::NotPresent))
}

// The file that the argument names. Where the name is longer than its room, no name is left of it, and the system opens nothing.
fn opened<R: Env + Files>(rt: &R) -> io::Result<R::File> {
    let mut room = [0u8; 4096];
    let n = rt.arg(1, &mut room).unwrap_or(0);
    match str::from_utf8(text::first(&room, n)) {
        Ok(name) => File::open(rt, name),
        Err(_) => Err(io::Error::from(ErrorKind::InvalidFilename)),
    }
}

fn diagnose<P: Print, R: Read>(rt: &P, input: &mut R) -> Result<(), Complaint> {
    let mut telling = Telling::new();
    session::run(input, &mut telling)?;
    let explained = telling.told.ok_or(Complaint::NoFrame)?;
    print_explained(rt, explained).map_err(|_| Complaint::Unwritable)
}

fn print_explained<P: Print>(rt: &P, explained: Explained) -> fmt::Result {
    let mut answers = Answers::new(rt);
    script_calls::put_explained(&mut answers, explained)?;
    answers.flush()
}
