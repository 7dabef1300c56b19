// GET and ACTION requests, and those for a block: each reader says for every slice what it asks; none is what is malformed. Every
// selector and every parameter is judged by the value reader of the crate axdr. specs/Requests has the places of the fields.
ghost use Rattle.std.specs.Prelude.{◌≡◌, Some};
ghost use Rattle.cosem.specs.Requests.{asked_in, asking_with, byte, last_value, name_in, optional_part, read_action, read_get, read_gets, read_next, read_service};

use crate::{Asked, Reading, ServiceKind, Wanted};
use model::Name;

// A GET request.
#[tactic(auto, unfolding(crate::specs::Requests::read_get))]
fn read_get(apdu: &[u8]) -> Option<Reading>
    ensures { result ≡ read_get apdu.now }
{
    let attribute = byte_of(apdu, 11);
    if !optional_part(b"\xC0\x01", apdu)? {
        return Some(Reading::Asks(asked(apdu, Wanted::Read { attribute })));
    }
    let selector = byte_of(apdu, 13);
    asks_with(
        apdu,
        14,
        Wanted::ReadSelected {
            attribute,
            selector,
            at: 14,
        },
    )
}

// A request for the next block.
#[tactic(auto, unfolding(crate::specs::Requests::read_next))]
fn read_next(apdu: &[u8]) -> Option<Reading>
    ensures { result ≡ read_next apdu.now }
{
    wire::expect_at(apdu, 0, b"\xC0\x02")?;
    let (number, next) = wire::number_at::<4>(apdu, 3)?;
    if next != apdu.len() {
        return None;
    }
    let invoke = byte_of(apdu, 2);
    Some(Reading::GoesOn { invoke, number })
}

// A request with the tag of GET, by its choice.
#[tactic(auto, unfolding(crate::specs::Requests::read_gets))]
fn read_gets(apdu: &[u8]) -> Option<Reading>
    ensures { result ≡ read_gets apdu.now }
{
    if byte_of(apdu, 1) == 0x02 {
        read_next(apdu)
    } else {
        read_get(apdu)
    }
}

// An ACTION request.
#[tactic(auto, unfolding(crate::specs::Requests::read_action))]
pub fn read_action(apdu: &[u8]) -> Option<Reading>
    ensures { result ≡ read_action apdu.now }
{
    let method = byte_of(apdu, 11);
    if !optional_part(b"\xC3\x01", apdu)? {
        return Some(Reading::Asks(asked(apdu, Wanted::Invoke { method })));
    }
    asks_with(apdu, 13, Wanted::InvokeWith { method, at: 13 })
}

// A request of this service.
pub fn read_service(kind: ServiceKind, apdu: &[u8]) -> Option<Reading>
    ensures { result ≡ read_service kind apdu.now }
{
    match kind {
        ServiceKind::Get => read_gets(apdu),
        ServiceKind::Set => None,
        ServiceKind::Action => read_action(apdu),
    }
}

// The name in a request; zeros where there is no room for one.
#[tactic(auto, unfolding(crate::specs::Requests::name_in))]
pub fn name_in(apdu: &[u8]) -> Name
    ensures { result ≡ name_in apdu.now }
{
    Name {
        bytes: wire::array_at(apdu, 5),
    }
}

// Whether the optional part of a request of this tag and choice is there; none where an APDU is no such request.
#[tactic(auto, unfolding(crate::specs::Requests::optional_part))]
fn optional_part(choice: &[u8], s: &[u8]) -> Option<bool>
    ensures { result ≡ optional_part choice.now s.now }
{
    wire::expect_at(s, 0, choice)?;
    let (presence, next) = wire::number_at::<1>(s, 12)?;
    match presence {
        0x00 if next == s.len() => Some(false),
        0x01 => Some(true),
        _ => None,
    }
}

// Whether one whole value stands at `at` and ends with the slice.
#[tactic(auto, unfolding(crate::specs::Requests::last_value))]
fn is_last_value(s: &[u8], at: usize) -> bool
    ensures { result ≡ last_value s.now at }
{
    let Some(end) = axdr::value_end(s, at) else {
        return false;
    };
    end == s.len()
}

// The request that wants `w`.
fn asked(s: &[u8], w: Wanted) -> Asked
    ensures { result ≡ asked_in s.now w }
{
    Asked {
        invoke: byte_of(s, 2),
        class: u16::from(byte_of(s, 3)) * 256 + u16::from(byte_of(s, 4)),
        wanted: w,
    }
}

// The request that wants `w`, where its value stands at `at` and is whole.
fn asks_with(s: &[u8], at: usize, w: Wanted) -> Option<Reading>
    ensures { result ≡ asking_with s.now at w }
{
    if is_last_value(s, at) {
        Some(Reading::Asks(asked(s, w)))
    } else {
        None
    }
}

// The byte at `at`; 0 past the end.
fn byte_of(s: &[u8], at: usize) -> u8
    ensures { result ≡ byte s.now at }
{
    if at < s.len() { s[at] } else { 0 }
}
