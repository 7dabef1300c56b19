// Requests for the body: V's plain GET, and GET and ACTION of a client that ciphers in their envelopes; and its requests for a block.
#![tactic(auto)]

ghost use Rattle.std.specs.Prelude.{◌≡◌, List, ℕ, ◌+◌, ◌≤◌, length};
ghost use Rattle.model.specs.Limits.{longest_sent, text_room};
ghost use Rattle.model.specs.Objects.{turned};
ghost use Rattle.body.specs.View.{body_of};
ghost use Rattle.model.specs.declared.Client.TheVariants.{Ciphering, Verification};
ghost use Rattle.cosem.specs.Tags.{dedicated_tag};
ghost use Rattle.cosem.specs.Requests.{read_service};
ghost use Rattle.line.specs.View.{line_of};
ghost use Rattle.protocol.specs.declared.Secrets.{Secrets as Lender};
ghost use Rattle.answers.specs.Promise.{Turns, inquiry_in};
ghost use Rattle.protocol.specs.Clients.{blocks_in, selective_in};
ghost use Rattle.protocol.specs.Rulings.{asks};
ghost use Rattle.protocol.specs.Decide.{accepted, advanced, asked, asked_inside, of_ciphering, request_enclosed, wrap};
ghost use Rattle.asking.specs.Allowed.{may_ask};
ghost use Rattle.ending.specs.Inner.{Hears, HearsUnder, Ready};

use answers::Turned;
use cosem::{Exception, Reading, ServiceKind};
use ending::{Heard, Opened, alone, drop_association, except, kept, misread};
use envelope::{LONGEST_APDU, Opening, Unadmitted};
use hdlc::Head;
use line::LineState;
use meter::Meter;
use model::{CipherClient, Client};
use protocol::Secrets;
use replies::{APDU_AT, TEXT_AT};

// A plain request. No key has a part in it.
pub fn ask_plain(
    meter: Meter,
    client: Client,
    head: Head,
    kind: ServiceKind,
    apdu: &[u8],
    out: &mut [u8],
) -> Heard
    requires { Ready meter out.old }
    ensures { (a : Lender) → Hears (asked (line_of meter.line) a client head apdu.now (read_service kind apdu.now)) meter out.old out.new result }
{
    let line = meter.line;
    match cosem::read_service(kind, apdu) {
        Some(reading) if may_ask(line, client, reading) => {
            answer_plain(meter, client, head, apdu, reading, out)
        }
        _ => alone(except(line, head, Exception::ServiceUnknown, out)),
    }
}

// Whether an association lets the client ask this: requests for a block have to be agreed.
fn may_ask(line: LineState, client: Client, reading: Reading) -> bool
    ensures { result ≡ may_ask (line_of line) client reading }
{
    match reading {
        Reading::Asks(_) => true,
        Reading::GoesOn { .. } => association::are_blocks_agreed(line, client),
    }
}

// The body's answer to a plain request.
fn answer_plain(
    meter: Meter,
    client: Client,
    head: Head,
    apdu: &[u8],
    reading: Reading,
    out: &mut [u8],
) -> Heard
    requires { Ready meter out.old }
    ensures { (ak : List ℕ) → Hears (asks (inquiry_in client (selective_in client (line_of meter.line)) (blocks_in client (line_of meter.line)) apdu.now reading) (wrap ak Verification head 0xC0) (line_of meter.line)) meter out.old out.new result }
{
    let answer = turn(meter, client, apdu, reading, out, APDU_AT);
    Heard {
        refusal: answer.refusal,
        count: replies::send_plain(out, head, answer.next - APDU_AT),
        line: meter.line,
        change: answer.change,
    }
}

// The body's answer to a client, by what its association allows: it stands from `at` on.
fn turn(
    meter: Meter,
    client: Client,
    text: &[u8],
    reading: Reading,
    out: &mut [u8],
    at: usize,
) -> Turned
    requires ready { Ready meter out.old }
    requires room { at + text_room longest_sent ≤ length out.old }
    ensures { Turns (turned (inquiry_in client (selective_in client (line_of meter.line)) (blocks_in client (line_of meter.line)) text.now reading) (body_of meter.body)) meter.body out.old at out.new result }
{
    let selective = association::is_selective(meter.line, client);
    let blocks = association::are_blocks_agreed(meter.line, client);
    answers::answer(
        meter.body, client, selective, blocks, text, reading, out, at,
    )
}

// A request with a tag that is for clients that cipher.
pub fn ask_ciphered(
    meter: Meter,
    secrets: Secrets,
    client: Client,
    head: Head,
    kind: ServiceKind,
    apdu: &[u8],
    out: &mut [u8],
) -> Heard
    requires { Ready meter out.old }
    ensures { Hears (of_ciphering (line_of meter.line) client head (λ c. request_enclosed (line_of meter.line) secrets c head kind apdu.now)) meter out.old out.new result }
{
    match client {
        Client::Verification => {
            alone(except(meter.line, head, Exception::ServiceNotAllowed, out))
        }
        Client::Ciphering(c) => ask_enclosed(meter, secrets, c, head, kind, apdu, out),
    }
}

// A request of a client that ciphers, in its envelope.
fn ask_enclosed(
    meter: Meter,
    secrets: Secrets,
    client: CipherClient,
    head: Head,
    kind: ServiceKind,
    apdu: &[u8],
    out: &mut [u8],
) -> Heard
    requires { Ready meter out.old }
    ensures { Hears (request_enclosed (line_of meter.line) secrets client head kind apdu.now) meter out.old out.new result }
{
    let line = meter.line;
    let pair = line::counters_of(line, client);
    let keys = association::dedicated_keys(secrets.ak, line, client);
    let title = line::title_of(line, Client::Ciphering(client));
    let tag = cosem::dedicated_tag(kind);
    let mut text = [0u8; LONGEST_APDU];
    match envelope::admit_envelope(keys, title, tag, pair, apdu, &mut text) {
        Err(Unadmitted::Unopened) => alone(kept(6, line)),
        Err(Unadmitted::OutsideWindow) => alone(drop_association(line, client)),
        Ok(Opening { counter, size }) => {
            let opened = Opened {
                client,
                keys,
                head,
                counter,
            };
            ask_inside(meter, opened, kind, &text[0..size], out)
        }
    }
}

// An opened request, under the keys that opened it.
fn ask_inside(meter: Meter, opened: Opened, kind: ServiceKind, text: &[u8], out: &mut [u8]) -> Heard
    requires { Ready meter out.old }
    ensures { HearsUnder opened.client opened.keys (λ a. asked_inside (line_of meter.line) a opened.client opened.head kind opened.counter text.now (read_service kind text.now)) meter out.old out.new result }
{
    let line = meter.line;
    let Opened {
        client,
        head,
        counter,
        ..
    } = opened;
    match cosem::read_service(kind, text) {
        Some(reading) if may_ask(line, Client::Ciphering(client), reading) => {
            answer_enclosed(meter, opened, kind, text, reading, out)
        }
        _ => alone(misread(line, client, head, counter, out)),
    }
}

// The body's answer to an opened request, in an envelope with the meter's next counter.
fn answer_enclosed(
    meter: Meter,
    opened: Opened,
    kind: ServiceKind,
    text: &[u8],
    reading: Reading,
    out: &mut [u8],
) -> Heard
    requires { Ready meter out.old }
    ensures { HearsUnder opened.client opened.keys (λ a. asks (inquiry_in (Ciphering opened.client) (selective_in (Ciphering opened.client) (line_of meter.line)) (blocks_in (Ciphering opened.client) (line_of meter.line)) text.now reading) (wrap a.ak (Ciphering opened.client) opened.head (dedicated_tag kind)) (advanced opened.client (accepted opened.client opened.counter (line_of meter.line)))) meter out.old out.new result }
{
    let line = meter.line;
    let asking = Client::Ciphering(opened.client);
    let held = line::counters_of(line, opened.client);
    let accepted = counters::accept(held, opened.counter);
    let taken = counters::take(accepted);
    let answer = turn(meter, asking, text, reading, out, TEXT_AT);
    let count = replies::send_enclosed(
        out,
        opened.head,
        opened.keys,
        line.title,
        cosem::answer_tag(kind),
        taken.number,
        answer.next - TEXT_AT,
    );
    Heard {
        refusal: answer.refusal,
        count,
        line: association::with_counters(line, opened.client, taken.counters),
        change: answer.change,
    }
}
