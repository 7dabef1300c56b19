// How a frame call ends: what the line answers by itself, as it was, as another or with an exception; and what becomes of the body.
#![tactic(auto)]

ghost use Rattle.std.specs.Prelude.{◌≡◌, List, ℕ};
ghost use Rattle.model.specs.State.{none};
ghost use Rattle.model.specs.declared.Client.TheVariants.{Ciphering};
ghost use Rattle.line.specs.View.{line_of};
ghost use Rattle.body.specs.Change.{unchanging};
ghost use Rattle.protocol.specs.Clients.{associates};
ghost use Rattle.protocol.specs.Rulings.{nothing, outside_window, refused_malformed, says};
ghost use Rattle.protocol.specs.Decide.{accepted};
ghost use Rattle.replies.specs.Room.{HasRoom};
ghost use Rattle.ending.specs.Inner.{Excepts, Tells, heard_of, told};

use body::Change;
use cosem::Exception;
use hdlc::Head;
use line::LineState;
use material::ReadyKeys;
use meter::Meter;
use model::{CipherClient, Client};

// What a frame call hands back: the number of its refusal, or 0, how many bytes of the reply room go out, and the meter. A number here
// and in the two structs below, as in what the calls promise: `Promised` and `Follows` say which number of document 01 a ruling has.
#[derive(Clone, Copy)]
pub struct Received {
    pub refusal: u8,
    pub count: usize,
    pub meter: Meter,
}

// What a frame comes to: the number, the count, the line, and what becomes of the body.
#[derive(Clone, Copy)]
pub struct Heard {
    pub refusal: u8,
    pub count: usize,
    pub line: LineState,
    pub change: Change,
}

// What the line answers by itself: the same, without the body. No register, row or clock has a part in it.
#[derive(Clone, Copy)]
pub struct Told {
    pub refusal: u8,
    pub count: usize,
    pub line: LineState,
}

// An envelope that was opened: by which client's keys, with which counter, and the head of the frame that it came in.
#[derive(Clone, Copy)]
pub struct Opened {
    pub client: CipherClient,
    pub keys: ReadyKeys,
    pub head: Head,
    pub counter: u32,
}

// Nothing goes out, and the line is as it was.
pub fn kept(refusal: u8, line: LineState) -> Told
    ensures { result ≡ told refusal 0 line }
{
    Told {
        refusal,
        count: 0,
        line,
    }
}

// An exception, and the line becomes this one, with the same associations as before.
pub fn except(line: LineState, head: Head, e: Exception, out: &mut [u8]) -> Told
    requires { HasRoom out.old }
    ensures { Excepts e head line out.old out.new result }
{
    let count = replies::send_exception(out, head, e);
    Told {
        refusal: 12,
        count,
        line,
    }
}

// An opened text that is malformed: the envelope's counter becomes the last accepted.
pub fn misread(
    line: LineState,
    client: CipherClient,
    head: Head,
    counter: u32,
    out: &mut [u8],
) -> Told
    requires { HasRoom out.old }
    ensures { Tells (refused_malformed head (accepted client counter (line_of line))) line out.old out.new result }
{
    except(
        accept_counter(line, client, counter),
        head,
        Exception::ServiceUnknown,
        out,
    )
}

// What the line answered by itself: the body is as it was. docs/CONTRACTS.md names it, so it is no `From`.
pub fn alone(answer: Told) -> Heard
    ensures { result ≡ heard_of answer.refusal answer.count answer.line unchanging }
{
    Heard {
        refusal: answer.refusal,
        count: answer.count,
        line: answer.line,
        change: body::unchanged(),
    }
}

// Refusal 7: nothing goes out, and the client's association is dropped.
pub fn drop_association(line: LineState, client: CipherClient) -> Told
    ensures { (l : List ℕ) → Tells (says outside_window nothing (associates (Ciphering client) none (line_of line))) line l l result }
{
    kept(7, association::ended(line, Client::Ciphering(client)))
}

// The line with a counter of the client's as the last accepted.
pub fn accept_counter(line: LineState, client: CipherClient, counter: u32) -> LineState
    ensures { line_of result ≡ accepted client counter (line_of line) }
{
    let accepted = counters::accept(line::counters_of(line, client), counter);
    association::with_counters(line, client, accepted)
}
