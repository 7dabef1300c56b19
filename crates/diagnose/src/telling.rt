// What is told of the last frame of an input: every line is made in turn, on the meter as it then stands.
use crate::complaint::Complaint;
use diagnosis::Explained;
use meter::Meter;
use script_calls::session::Worker;
use script_calls::{Done, Kind};
use script_text::answer;
use script_text::fields::Unread;

// The current meter, whether a line has given it (owner's calls are made on it before, so it is no Option), and what is told of the
// last frame.
#[derive(Drop)]
pub struct Telling {
    meter: Meter,
    is_given: bool,
    pub told: Option<Explained>,
}

impl Telling {
    pub fn new() -> Telling {
        Telling {
            meter: script_calls::unnamed(),
            is_given: false,
            told: None,
        }
    }

    // What a line tells of a frame, and what it comes to.
    fn made(&self, line: Result<&[u8], Unread>) -> Result<(Option<Explained>, Done), Unread> {
        let line = line?;
        let told = script_calls::explained(self.meter, line)?;
        let mut reply = [answer::FILL; answer::REPLY];
        let done = script_calls::made(self.meter, line, &mut reply)?;
        Ok((told, done))
    }
}

// A line that cannot be read, an image that is refused, and a frame before any meter end the session.
impl Worker for Telling {
    type Stop = Complaint;

    fn take(&mut self, number: u64, line: Result<&[u8], Unread>) -> Result<(), Complaint> {
        let (told, done) = match self.made(line) {
            Ok(made) => made,
            Err(unread) => return Err(Complaint::Line(number, unread.column())),
        };
        self.meter = done.meter;
        if matches!(done.kind, Kind::Meter) {
            if done.refusal != 0 {
                return Err(Complaint::Image(number, done.refusal));
            }
            self.is_given = true;
        }
        if told.is_some() {
            if !self.is_given {
                return Err(Complaint::EarlyFrame(number));
            }
            self.told = told;
        }
        Ok(())
    }

    fn pause(&mut self) -> Result<(), Complaint> {
        Ok(())
    }
}
