// The body's answer to an opened request, written into the reply buffer as a plain APDU, and what the request makes of the body. A
// writer requires room for its bytes; what is to be written, and how long it is, was decided before the first byte.
#![tactic(auto)]

ghost use Rattle.std.specs.Prelude.{◌≡◌, true, [], ◌∷◌, ◌+◌, ◌≤◌, length};
ghost use Rattle.wire.specs.Wrote.{Wrote};
ghost use Rattle.model.specs.Limits.{longest_sent, text_room};
ghost use Rattle.model.specs.Objects.{action, answered, ask, get, turned};
ghost use Rattle.cosem.specs.Requests.{service_in};
ghost use Rattle.body.specs.View.{body_of, body_sound};
ghost use Rattle.objects.specs.Meanings.{found_as, request_as};
ghost use Rattle.objects.specs.Picks.{parameter_in, selection_in};
ghost use Rattle.answers.specs.Promise.{Turns, inquiry_in};

use crate::granted::put_data;
use crate::transfer::{after_read, answer_next, put_rows_block};
use body::{BodyState, Change};
use cosem::{Reading, Wanted};
use model::Client;
use objects::{Query, Selector, Served};
use results::Outcome;

mod granted;
mod transfer;

// The number of the refusal, or 0, as a call from C hands it out; the place after the answer, and what becomes of the body, of which a
// refused request has both, too.
#[derive(Clone, Copy)]
pub struct Turned {
    pub refusal: u8,
    pub next: usize,
    pub change: Change,
}

// The answer to what a client asked with this APDU, as it was read; selective access and block transfer were agreed or not.
// A sound body stays a clause: `BodyState` holds unsound ones (UnsoundAnswers3 of meter); a type for sound ones would be opened at each field.
pub fn answer(
    body: BodyState,
    client: Client,
    selective: bool,
    blocks: bool,
    apdu: &[u8],
    reading: Reading,
    out: &mut [u8],
    at: usize,
) -> Turned
    requires { (body_sound (body_of body) ≡ true) × (at + text_room longest_sent ≤ length out.old) }
    ensures { Turns (turned (inquiry_in client selective blocks apdu.now reading) (body_of body)) body out.old at out.new result }
{
    match reading {
        Reading::Asks(asked) => {
            let query = Query {
                client,
                invoke: asked.invoke,
                selective,
                blocks,
                class: asked.class,
                name: cosem::name_in(apdu),
            };
            answer_request(body, query, asked.wanted, apdu, out, at)
        }
        Reading::GoesOn { invoke, number } => answer_next(body, invoke, number, out, at),
    }
}

// The answer to a request that wants this.
fn answer_request(
    body: BodyState,
    query: Query,
    wanted: Wanted,
    apdu: &[u8],
    out: &mut [u8],
    at: usize,
) -> Turned
    requires { (body_sound (body_of body) ≡ true) × (at + text_room longest_sent ≤ length out.old) }
    ensures { Turns (turned (ask (request_as query (service_in apdu.now wanted))) (body_of body)) body out.old at out.new result }
{
    let found = objects::find(query.client, query.name, body.registers);
    match wanted {
        Wanted::Read { attribute } => {
            answer_get(body, found, query, attribute, None, apdu, out, at)
        }
        Wanted::ReadSelected {
            attribute,
            selector: number,
            at: place,
        } => {
            let selector = Selector { number, at: place };
            answer_get(body, found, query, attribute, Some(selector), apdu, out, at)
        }
        Wanted::Invoke { method } => answer_action(body, found, query, method, None, apdu, out, at),
        Wanted::InvokeWith { method, at: place } => {
            answer_action(body, found, query, method, Some(place), apdu, out, at)
        }
    }
}

fn answer_get(
    body: BodyState,
    found: Option<Served>,
    query: Query,
    attribute: u8,
    selector: Option<Selector>,
    apdu: &[u8],
    out: &mut [u8],
    at: usize,
) -> Turned
    requires { (body_sound (body_of body) ≡ true) × (at + text_room longest_sent ≤ length out.old) }
    ensures { Turns (answered (request_as query (get attribute (selection_in apdu.now selector))) (body_of body) (found_as query.name found) (get attribute (selection_in apdu.now selector))) body out.old at out.new result }
{
    match results::read_attribute(body, found, query, attribute, selector, apdu) {
        Ok(Outcome::Granted(d)) => {
            let a = put_head(out, at, 0xC4, query.invoke, 0x00);
            let b = put_data(out, a, d, query.name, body);
            Turned {
                refusal: 0,
                next: b,
                change: after_read(query.client, picks::no_transfer()),
            }
        }
        Ok(Outcome::Begun { which }) => {
            let b = put_rows_block(out, at, query.invoke, 1, body.rows, which);
            let picking = objects::picking_of(selector, apdu);
            Turned {
                refusal: 0,
                next: b.next,
                change: after_read(query.client, picks::running(picking, 1)),
            }
        }
        Err(denial) => {
            let a = put_head(out, at, 0xC4, query.invoke, 0x01);
            let b = wire_write::put(out, a, u8::from(denial));
            Turned {
                refusal: 13,
                next: b,
                change: after_read(query.client, picks::no_transfer()),
            }
        }
    }
}

fn answer_action(
    body: BodyState,
    found: Option<Served>,
    query: Query,
    method: u8,
    argument: Option<usize>,
    apdu: &[u8],
    out: &mut [u8],
    at: usize,
) -> Turned
    requires { (body_sound (body_of body) ≡ true) × (at + text_room longest_sent ≤ length out.old) }
    ensures { Turns (answered (request_as query (action method (parameter_in apdu.now argument))) (body_of body) (found_as query.name found) (action method (parameter_in apdu.now argument))) body out.old at out.new result }
{
    match results::invoke_method(found, query, method, argument, apdu) {
        Ok(()) => {
            let a = put_head(out, at, 0xC7, query.invoke, 0x00);
            let b = wire_write::put(out, a, 0x00);
            Turned {
                refusal: 0,
                next: b,
                change: results::after_method(found),
            }
        }
        Err(denial) => {
            let a = put_head(out, at, 0xC7, query.invoke, u8::from(denial));
            let b = wire_write::put(out, a, 0x00);
            Turned {
                refusal: 13,
                next: b,
                change: body::unchanged(),
            }
        }
    }
}

// The four bytes that every answer begins with.
fn put_head(out: &mut [u8], at: usize, tag: u8, invoke: u8, fourth: u8) -> usize
    requires { at + 4 ≤ length out.old }
    ensures { Wrote out.old at out.new result (tag ∷ 0x01 ∷ invoke ∷ fourth ∷ []) }
{
    let a = wire_write::put(out, at, tag);
    let b = wire_write::put(out, a, 0x01);
    let c = wire_write::put(out, b, invoke);
    wire_write::put(out, c, fourth)
}
