// The calls of the script program, a function for each verb: the fields are read to the end of the line, and then the call is
// made. A line that cannot be read makes no call and leaves the meter as it is. The program `day` makes its owner's calls by
// the same lines, and its frame calls by `receive`. In `session` the lines of a whole input.
#![tactic(auto)]

pub mod session;

use diagnosis::Explained;
use diagnosis_write::LONGEST_LINE;
use meter::{Changed, Meter};
use model::{Clock, Name, Register};
use script_text::answer::Answers;
use script_text::fields::{ByteString, Fields, MOST, Unread};
use script_text::verbs::Verb;
use std::fmt;

// Places of a list to which nothing was read.
const NO_NAME: Name = Name { bytes: [0; 6] };

const NO_REGISTER: Register = Register {
    name: NO_NAME,
    readable: false,
    scaler: 0,
    unit: 0,
    value: 0,
};

// What kind of line it is: a call on the current meter, one that makes another the current one, or a frame that is explained, and
// what is told of it.
#[derive(Clone, Copy)]
pub enum Kind {
    Call,
    Meter,
    Explanation(Explained),
}

// What a line comes to: its kind; the meter; the number of the refusal, or 0, as answers have it; and how many bytes of the reply
// buffer are the reply.
#[derive(Clone, Copy)]
pub struct Done {
    pub kind: Kind,
    pub meter: Meter,
    pub refusal: u8,
    pub count: usize,
}

// What a frame call gets beside the meter: what is lent to it, and the frame.
#[derive(Drop)]
struct Given {
    guk: ByteString,
    ak: ByteString,
    challenge: ByteString,
    room: usize,
    frame: ByteString,
}

// The meter before a line has given one: its name and titles are all zero.
pub fn unnamed() -> Meter {
    Meter::new([0; 16], [0; 8], [0; 8], [0; 8])
}

// The call of a line.
pub fn made(meter: Meter, line: &[u8], reply: &mut [u8]) -> Result<Done, Unread> {
    let mut fields = Fields::new(line);
    match fields.verb()? {
        Verb::Frame => frame(meter, fields, reply),
        Verb::Explain => explanation(meter, fields),
        Verb::Image => take_image(meter, fields),
        Verb::Dump => dump(meter, fields, reply),
        verb => by_owner(meter, verb, fields, 0),
    }
}

// What is told of the frame of a line, received or explained; of any other line nothing, and no call is made.
pub fn explained(meter: Meter, line: &[u8]) -> Result<Option<Explained>, Unread> {
    let mut fields = Fields::new(line);
    match fields.verb()? {
        Verb::Frame | Verb::Explain => {
            let mut given = Given::new();
            given.read(fields)?;
            Ok(Some(explain(meter, &given)))
        }
        _ => Ok(None),
    }
}

// The owner's call of a line. A value that it sets is greater by `extra` than the line has it.
pub fn owned(meter: Meter, line: &[u8], extra: u32) -> Result<Done, Unread> {
    let mut fields = Fields::new(line);
    let verb = fields.verb()?;
    by_owner(meter, verb, fields, extra)
}

fn by_owner(meter: Meter, verb: Verb, fields: Fields, extra: u32) -> Result<Done, Unread> {
    match verb {
        Verb::New => new(fields),
        Verb::Registers => registers(meter, fields),
        Verb::Value => value(meter, fields, extra),
        Verb::Columns => columns(meter, fields),
        Verb::Period => period(meter, fields),
        Verb::Tick => tick(meter, fields),
        Verb::P5 => p5(meter, fields),
        Verb::Power => power(meter, fields),
        Verb::Frame | Verb::Image | Verb::Dump | Verb::Explain => Err(fields.unread()),
    }
}

fn new(mut fields: Fields) -> Result<Done, Unread> {
    let name = fields.fixed(b' ')?;
    let title = fields.fixed(b' ')?;
    let verification = fields.fixed(b' ')?;
    let han = fields.fixed(b' ')?;
    fields.end()?;
    Ok(replaced(0, Meter::new(name, title, verification, han)))
}

fn registers(meter: Meter, mut fields: Fields) -> Result<Done, Unread> {
    let mut items = [NO_REGISTER; 16];
    let count = fields.list(&mut items, Fields::register)?;
    fields.end()?;
    Ok(changed(meter.give_registers(items, count)))
}

fn value(meter: Meter, mut fields: Fields, extra: u32) -> Result<Done, Unread> {
    let name = fields.name()?;
    let value = fields.decimal(b' ', u32::MAX - extra)?;
    fields.end()?;
    Ok(changed(meter.set_value(name, value + extra)))
}

fn columns(meter: Meter, mut fields: Fields) -> Result<Done, Unread> {
    let mut items = [NO_NAME; 16];
    let count = fields.list(&mut items, Fields::name)?;
    fields.end()?;
    Ok(changed(meter.set_columns(items, count)))
}

fn period(meter: Meter, mut fields: Fields) -> Result<Done, Unread> {
    let seconds = fields.decimal(b' ', 65535)?;
    fields.end()?;
    Ok(changed(meter.set_period(seconds)))
}

fn tick(meter: Meter, mut fields: Fields) -> Result<Done, Unread> {
    let bytes = fields.fixed(b' ')?;
    fields.end()?;
    Ok(changed(meter.tick(Clock { bytes })))
}

fn p5(meter: Meter, mut fields: Fields) -> Result<Done, Unread> {
    let flag = fields.flag(b' ')?;
    fields.end()?;
    Ok(changed(meter.set_p5(flag)))
}

fn power(meter: Meter, fields: Fields) -> Result<Done, Unread> {
    fields.end()?;
    Ok(changed(meter.power_up()))
}

impl Given {
    fn new() -> Given {
        Given {
            guk: ByteString::new(),
            ak: ByteString::new(),
            challenge: ByteString::new(),
            room: 0,
            frame: ByteString::new(),
        }
    }

    fn read(&mut self, mut fields: Fields) -> Result<(), Unread> {
        fields.byte_string(&mut self.guk)?;
        fields.byte_string(&mut self.ak)?;
        fields.byte_string(&mut self.challenge)?;
        self.room = fields.decimal(b' ', MOST as u32)? as usize;
        fields.byte_string(&mut self.frame)?;
        fields.end()
    }
}

fn frame(meter: Meter, fields: Fields, reply: &mut [u8]) -> Result<Done, Unread> {
    let mut g = Given::new();
    g.read(fields)?;
    Ok(receive(
        meter,
        g.frame.as_slice(),
        g.guk.as_slice(),
        g.ak.as_slice(),
        g.challenge.as_slice(),
        g.room,
        reply,
    ))
}

// The frame call, with so much of the reply buffer lent. Its arguments are those of `p2::receive`, and so no struct.
pub fn receive(
    meter: Meter,
    frame: &[u8],
    guk: &[u8],
    ak: &[u8],
    challenge: &[u8],
    room: usize,
    reply: &mut [u8],
) -> Done {
    let r = p2::receive(meter, frame, guk, ak, challenge, start_of(reply, room));
    called(r.meter, r.refusal, r.count)
}

// What is told of a frame call; the meter stays as it is.
fn explanation(meter: Meter, fields: Fields) -> Result<Done, Unread> {
    let mut given = Given::new();
    given.read(fields)?;
    let explained = explain(meter, &given);
    Ok(Done {
        kind: Kind::Explanation(explained),
        meter,
        refusal: explained.refusal,
        count: 0,
    })
}

fn explain(meter: Meter, g: &Given) -> Explained {
    diagnosis::explain(
        meter,
        g.frame.as_slice(),
        g.guk.as_slice(),
        g.ak.as_slice(),
        g.challenge.as_slice(),
        g.room,
    )
}

fn take_image(meter: Meter, mut fields: Fields) -> Result<Done, Unread> {
    let mut bytes = ByteString::new();
    fields.byte_string(&mut bytes)?;
    fields.end()?;
    Ok(match image::read_image(bytes.as_slice()) {
        Ok(read) => replaced(0, read),
        Err(fault) => replaced(fault.number(), meter),
    })
}

fn dump(meter: Meter, fields: Fields, reply: &mut [u8]) -> Result<Done, Unread> {
    fields.end()?;
    let _ = image_write::write_image(meter.cleared(), start_of(reply, image::SIZE));
    Ok(called(meter, 0, image::SIZE))
}

// The first `n` bytes of the reply buffer, or all where there are fewer.
fn start_of(reply: &mut [u8], n: usize) -> &mut [u8] {
    let count = n.min(reply.len());
    &mut reply[..count]
}

// A meter that is the current one from here on, or the one that stays where another is refused.
fn replaced(refusal: u8, meter: Meter) -> Done {
    Done {
        kind: Kind::Meter,
        meter,
        refusal,
        count: 0,
    }
}

fn changed(r: Changed) -> Done {
    called(r.meter, r.refusal, 0)
}

// A call with so many bytes of reply.
fn called(meter: Meter, refusal: u8, count: usize) -> Done {
    Done {
        kind: Kind::Call,
        meter,
        refusal,
        count,
    }
}

// The line that tells of a frame.
pub fn put_explained<P: Print>(answers: &mut Answers<P>, explained: Explained) -> fmt::Result {
    let mut text = [0u8; LONGEST_LINE];
    let n = diagnosis_write::put_line(
        &mut text,
        0,
        explained.refusal,
        explained.finding,
        explained.place,
    );
    answers.put_text(text::first(&text, n))
}
