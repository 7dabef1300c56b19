// The script program: calls on a meter, read from standard input one a line, each answered by one line on standard output.
// What a call does, a session of lines, and the text of lines and answers, are in the libraries. docs/SCRIPT.md has the format.
#![tactic(auto)]

use meter::Meter;
use script_calls::session::{Failure, Worker};
use script_calls::{Kind, session};
use script_text::answer;
use script_text::answer::Answers;
use script_text::fields::Unread;
use std::fmt;

// The current meter, and the answers to its calls.
#[derive(Drop)]
struct Answering<'a, P> {
    meter: Meter,
    answers: Answers<'a, P>,
}

impl<P: Print> Worker for Answering<'_, P> {
    type Stop = fmt::Error;

    fn take(&mut self, _number: u64, line: Result<&[u8], Unread>) -> fmt::Result {
        let mut reply = [answer::FILL; answer::REPLY];
        let made = line.and_then(|l| script_calls::made(self.meter, l, &mut reply));
        let done = match made {
            Ok(done) => done,
            Err(unread) => return self.answers.put_unread(unread),
        };
        self.meter = done.meter;
        match done.kind {
            Kind::Explanation(explained) => script_calls::put_explained(
                &mut self.answers,
                explained,
            ),
            Kind::Call | Kind::Meter => self.answers.put_answer(done.refusal, done.count, &reply),
        }
    }

    fn pause(&mut self) -> fmt::Result {
        self.answers.flush()
    }
}

fn main(rt: HostRuntime) {
    let mut answering = Answering {
        meter: script_calls::unnamed(),
        answers: Answers::new(&rt),
    };
    let Err(failure) = session::run(&mut rt.stdin(), &mut answering) else {
        return;
    };
    let reason = match failure {
        Failure::Empty => "standard input is empty",
        Failure::Unreadable => "standard input cannot be read",
        Failure::Stopped(fmt::Error) => "standard output cannot be written",
    };
    let _ = eprintln!(rt; "script: {reason}");
}
