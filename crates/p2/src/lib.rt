// The frame call: a meter, a received frame, the keys and the challenge that are lent, and a reply room; a number, how many
// bytes of the reply room go out, and the meter come back. It answers for every frame, every length lent and every meter.
#![tactic(auto)]

mod converse;
mod links;

ghost use Rattle.std.specs.Prelude.{◌≡◌, [], length};
ghost use Rattle.model.specs.Calls.{lent_refusal};
ghost use Rattle.hdlc.specs.Reading.{read_frame};
ghost use Rattle.line.specs.View.{line_of};
ghost use Rattle.protocol.specs.Decide.{heard};
ghost use Rattle.ending.specs.Inner.{Hears, Ready, carried_out, received};
ghost use Rattle.p2.specs.Promise.{Answered, lent};
ghost use Rattle.p2.specs.Settling.{kept_transfer, settled_received};

use ending::{Heard, Received, alone, kept};
use hdlc::Frame;
use line::LineState;
use meter::Meter;
use picks::Transfer;
use protocol::Secrets;

// The reply room that a call asks for.
const REPLY_ROOM: usize = 779;

// A frame is received. Refusals 1 to 13.
pub fn receive(
    meter: Meter,
    frame: &[u8],
    guk: &[u8],
    ak: &[u8],
    challenge: &[u8],
    reply: &mut [u8],
) -> Received
    ensures { Answered (lent (length reply.old) guk.now ak.now challenge.now frame.now) meter reply.old reply.new result }
{
    let n = lent_refusal(reply.len(), guk, ak, challenge);
    if n != 0 {
        return refused(n, meter);
    }
    if !meter::is_sound(meter) {
        return refused(3, meter);
    }
    let secrets = association::secrets_of(guk, ak, challenge);
    let heard = hear(meter, secrets, frame, reply);
    settle(heard, meter)
}

// What is refused of what is lent, whatever the meter and the frame are: 1, 2, or 0 where it is taken. A number, as in `Received`: the C
// interface has refusals as numbers.
#[tactic(auto, using(model::proofs::LimitFacts::reply_room_lem), unfolding(model::specs::Calls::lent_refusal))]
pub fn lent_refusal(room: usize, guk: &[u8], ak: &[u8], challenge: &[u8]) -> u8
    ensures { result ≡ lent_refusal (lent room guk.now ak.now challenge.now []) }
{
    if room < REPLY_ROOM {
        1
    } else if guk.len() != 16 || ak.len() != 16 || challenge.len() != 8 {
        2
    } else {
        0
    }
}

// Nothing goes out, and the very meter comes back.
fn refused(refusal: u8, meter: Meter) -> Received
    ensures { result ≡ received refusal 0 meter }
{
    Received {
        refusal,
        count: 0,
        meter,
    }
}

// What was heard of a frame is carried out. The end of H's association forgets its transfer, ended or not.
fn settle(heard: Heard, meter: Meter) -> Received
    ensures { result ≡ settled_received (carried_out meter heard) }
{
    let left = body::left_by(heard.change, meter.body.transfer);
    let kept = kept_transfer(heard.line, left);
    Received {
        refusal: heard.refusal,
        count: heard.count,
        meter: Meter {
            line: heard.line,
            body: body::changed(meter.body, heard.change, kept),
        },
    }
}

// The transfer, where the line allows it; else none.
fn kept_transfer(line: LineState, transfer: Transfer) -> Transfer
    ensures { result ≡ kept_transfer (line_of line) transfer }
{
    if meter::is_allowed(line, transfer) {
        transfer
    } else {
        picks::no_transfer()
    }
}

// A frame, on a sound meter, with enough room and keys of the right lengths.
fn hear(meter: Meter, secrets: Secrets, frame: &[u8], out: &mut [u8]) -> Heard
    requires { Ready meter out.old }
    ensures { Hears (heard (line_of meter.line) secrets frame.now (read_frame frame.now)) meter out.old out.new result }
{
    let line = meter.line;
    match hdlc::read_frame(frame) {
        Frame::Unanswered(test) => alone(kept(hdlc::number_of(test), line)),
        Frame::Rejected(test, head) => alone(links::reject(line, head, test, out)),
        Frame::LinkUp {
            client,
            head,
            information,
        } => alone(links::link_up(line, client, head, information, out)),
        Frame::LinkDown { client, head } => alone(links::link_down(line, client, head, out)),
        Frame::Apdu {
            client,
            head,
            start,
            end,
        } => converse::carry(meter, secrets, client, head, &frame[start..end], out),
    }
}
