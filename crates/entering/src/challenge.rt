// A client's answer to the challenge: what its proof comes to, and the meter's own.
ghost use Rattle.cosem.specs.Requests.{read_action};
ghost use Rattle.line.specs.View.{line_of};
ghost use Rattle.protocol.specs.Decide.{answered_challenge, challenged, challenge_enclosed, disproved, of_ciphering, proved};
ghost use Rattle.replies.specs.Room.{HasRoom};
ghost use Rattle.ending.specs.Inner.{Tells, TellsUnder};

use association::{is_challenge, proves_itself};
use cosem::{Asked, Exception, Reading};
use ending::{Opened, Told, accept_counter, drop_association, except, kept, misread};
use envelope::{LONGEST_APDU, Opening, Unadmitted};
use hdlc::Head;
use line::LineState;
use model::{CipherClient, Client};
use protocol::Secrets;

// An APDU with the tag of the challenge's answer, which is for clients that cipher.
pub fn hear_ciphered(
    line: LineState,
    secrets: Secrets,
    client: Client,
    head: Head,
    apdu: &[u8],
    out: &mut [u8],
) -> Told
    requires { HasRoom out.old }
    ensures { Tells (of_ciphering (line_of line) client head (λ c. challenge_enclosed (line_of line) secrets c head apdu.now)) line out.old out.new result }
{
    match client {
        Client::Verification => except(line, head, Exception::ServiceNotAllowed, out),
        Client::Ciphering(c) => hear_challenge(line, secrets, c, head, apdu, out),
    }
}

// An envelope with that tag.
fn hear_challenge(
    line: LineState,
    secrets: Secrets,
    client: CipherClient,
    head: Head,
    apdu: &[u8],
    out: &mut [u8],
) -> Told
    requires { HasRoom out.old }
    ensures { Tells (challenge_enclosed (line_of line) secrets client head apdu.now) line out.old out.new result }
{
    let pair = line::counters_of(line, client);
    let keys = association::lent_keys(secrets);
    let title = line::title_of(line, Client::Ciphering(client));
    let mut text = [0u8; LONGEST_APDU];
    match envelope::admit_envelope(keys, title, 0xCB, pair, apdu, &mut text) {
        Err(Unadmitted::Unopened) => kept(6, line),
        Err(Unadmitted::OutsideWindow) => drop_association(line, client),
        Ok(Opening { counter, size }) => {
            let opened = Opened {
                client,
                keys,
                head,
                counter,
            };
            answer_challenge(line, opened, &text[0..size], out)
        }
    }
}

// An opened APDU while the client is pending.
fn answer_challenge(line: LineState, opened: Opened, text: &[u8], out: &mut [u8]) -> Told
    requires { HasRoom out.old }
    ensures { TellsUnder opened.keys (λ a. answered_challenge (line_of line) a opened.client opened.head opened.counter text.now (read_action text.now)) line out.old out.new result }
{
    match cosem::read_action(text) {
        Some(Reading::Asks(request)) => judge(line, opened, text, request, out),
        Some(Reading::GoesOn { .. }) => {
            misread(line, opened.client, opened.head, opened.counter, out)
        }
        None => misread(line, opened.client, opened.head, opened.counter, out),
    }
}

// An ACTION while the client is pending.
fn judge(line: LineState, opened: Opened, text: &[u8], request: Asked, out: &mut [u8]) -> Told
    requires { HasRoom out.old }
    ensures { TellsUnder opened.keys (λ a. challenged (line_of line) a opened.client opened.head opened.counter text.now request) line out.old out.new result }
{
    let Opened {
        client,
        keys,
        head,
        counter,
    } = opened;
    if !is_challenge(client, text, request) {
        let next = accept_counter(line, client, counter);
        return except(next, head, Exception::ServiceNotAllowed, out);
    }
    if proves_itself(line, client, keys, counter, text, request) {
        prove(line, opened, request.invoke, out)
    } else {
        disprove(line, opened, request.invoke, out)
    }
}

// A right proof: the meter's goes out, and the client is associated. The proof takes a counter before its envelope.
fn prove(line: LineState, opened: Opened, invoke: u8, out: &mut [u8]) -> Told
    requires { HasRoom out.old }
    ensures { TellsUnder opened.keys (λ a. proved (line_of line) a opened.client opened.head invoke opened.counter) line out.old out.new result }
{
    let held = line::counters_of(line, opened.client);
    let first = counters::take(counters::accept(held, opened.counter));
    let second = counters::take(first.counters);
    let count = replies::send_proof(
        out,
        opened.head,
        opened.keys,
        line.title,
        line::client_challenge(line, opened.client),
        invoke,
        first.number,
        second.number,
    );
    Told {
        refusal: 0,
        count,
        line: association::associated_ciphered(line, opened.client, second.counters),
    }
}

// A wrong proof: code 250 goes out, and the client's association ends.
fn disprove(line: LineState, opened: Opened, invoke: u8, out: &mut [u8]) -> Told
    requires { HasRoom out.old }
    ensures { TellsUnder opened.keys (λ a. disproved (line_of line) a opened.client opened.head invoke opened.counter) line out.old out.new result }
{
    let held = line::counters_of(line, opened.client);
    let first = counters::take(counters::accept(held, opened.counter));
    let advanced = association::with_counters(line, opened.client, first.counters);
    let count = replies::send_denial(
        out,
        opened.head,
        opened.keys,
        line.title,
        invoke,
        250,
        first.number,
    );
    Told {
        refusal: 13,
        count,
        line: association::ended(advanced, Client::Ciphering(opened.client)),
    }
}
