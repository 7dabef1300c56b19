// Why a frame call is refused: the first test of documents 01 and 02 that it fails, for every meter, frame and length lent. It
// goes the road of the frame call with the same readers, and makes no reply. It works with the keys, for their holder: what it
// tells stands outside demand 3, and it is no part of the static library. The crate call_tests has the tests.
#![tactic(auto)]

mod apdus;
mod envelopes;
mod ready;
mod requests;
mod state;
mod told;

ghost use Rattle.std.specs.Prelude.{◌≡◌};
ghost use Rattle.hdlc.specs.Reading.{read_frame};
ghost use Rattle.line.specs.View.{line_of};
ghost use Rattle.body.specs.View.{body_of};
ghost use Rattle.meter.specs.View.{view};
ghost use Rattle.call_tests.specs.Tests.{found};
ghost use Rattle.call_tests.specs.Road.{heard_finds, link_down_finds, link_up_finds};
ghost use Rattle.p2.specs.Promise.{lent};
ghost use Rattle.diagnosis.specs.Promise.{explained};

use call_tests::{Finding, LineTest};
use hdlc::Frame;
use line::LineState;
use meter::Meter;
use model::Client;
use ready::Ready;

// What is told of a call: the number that it answers, as a call does, the test that it fails first or none, and where the frame fails
// it.
#[derive(Clone, Copy)]
pub struct Explained {
    pub refusal: u8,
    pub finding: Finding,
    pub place: Option<usize>,
}

// Explains the frame call on this meter with all that it is lent; of the reply room that is its length.
// What is lent stays a list of parameters: it is that of `p2::receive`, whose call this explains.
pub fn explain(
    meter: Meter,
    frame: &[u8],
    guk: &[u8],
    ak: &[u8],
    challenge: &[u8],
    room: usize,
) -> Explained
    ensures { result ≡ explained (view meter) (lent room guk.now ak.now challenge.now frame.now) }
{
    let finding = find(meter, frame, guk, ak, challenge, room);
    Explained {
        refusal: told::number_found(finding),
        finding,
        place: told::place_found(finding, frame),
    }
}

// The first test that a call fails, or none: what is lent, then the state, then the frame.
fn find(meter: Meter, frame: &[u8], guk: &[u8], ak: &[u8], challenge: &[u8], room: usize) -> Finding
    ensures { result ≡ found (view meter) (lent room guk.now ak.now challenge.now frame.now) }
{
    state::find_lent(room, guk, ak, challenge)?;
    state::find_unsound(meter)?;
    let secrets = association::secrets_of(guk, ak, challenge);
    hear(Ready { meter, secrets }, frame)
}

// A frame, on a sound meter.
fn hear(ready: Ready, frame: &[u8]) -> Finding
    ensures { result ≡ heard_finds (line_of ready.meter.line) (body_of ready.meter.body) ready.secrets frame.now (read_frame frame.now) }
{
    let read = hdlc::read_frame(frame);
    match read {
        Frame::Unanswered(test) | Frame::Rejected(test, _) => Err(test.into()),
        Frame::LinkUp {
            client,
            information,
            ..
        } => link_up(ready.meter.line, client, information),
        Frame::LinkDown { client, .. } => link_down(ready.meter.line, client),
        Frame::Apdu {
            client,
            start,
            end,
            ..
        } => apdus::carry(ready, client, &frame[start..end]),
    }
}

// A link that is to come up.
#[tactic(auto, unfolding(call_tests::specs::Road::link_up_finds))]
fn link_up(line: LineState, client: Client, information: bool) -> Finding
    ensures { result ≡ link_up_finds (line_of line) client information }
{
    if information {
        return Err(LineTest::LinkUpWithInformation.into());
    }
    if association::is_held_by_p5(line, client) {
        return Err(LineTest::P5HoldsV.into());
    }
    Ok(())
}

// A link that is to go down.
#[tactic(auto, unfolding(call_tests::specs::Road::link_down_finds))]
fn link_down(line: LineState, client: Client) -> Finding
    ensures { result ≡ link_down_finds (line_of line) client }
{
    if !line::is_up(line, client) {
        return Err(LineTest::LinkDownWhileDown.into());
    }
    Ok(())
}
