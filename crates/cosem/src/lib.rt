// Plain APDUs of the COSEM services: tags, GET and ACTION requests and requests for a block read, release, exceptions. Readers
// answer for every slice; names and values stay in the APDU and are read at their places. specs/ says what each means; proofs/ has
// the laws for callers.
#![tactic(auto)]

mod request;
mod shapes;
mod tags;

use model::Clock;
pub use request::{name_in, read_action, read_service};
pub use shapes::{entries_at, is_integer_at, range_at, rest_of};
pub use tags::{answer_tag, dedicated_tag, is_release, put_exception, put_release, tag_in, tag_of};

// The services of the requests that have a tag.
#[derive(Clone, Copy)]
pub enum ServiceKind {
    Get,
    Set,
    Action,
}

// The tags of the APDUs that a client may send. A request goes plain, or in an envelope under the dedicated key; an ACTION in one
// under the client's GUK.
#[derive(Clone, Copy)]
pub enum Tag {
    Aarq,
    Rlrq,
    PlainRequest(ServiceKind),
    GlobalAction,
    DedicatedRequest(ServiceKind),
    // a row of the tables of what may be sent, as the others are: an Option would wrap each of their arms
    Unknown,
}

// The two exceptions.
#[derive(Clone, Copy)]
pub enum Exception {
    ServiceNotAllowed,
    ServiceUnknown,
}

// What a request wants: an attribute read, a method invoked. The value of a selector or a parameter begins at `at` and ends
// with the APDU.
#[derive(Clone, Copy)]
pub enum Wanted {
    Read {
        attribute: u8,
    },
    ReadSelected {
        attribute: u8,
        selector: u8,
        at: usize,
    },
    Invoke {
        method: u8,
    },
    InvokeWith {
        method: u8,
        at: usize,
    },
}

// A request but for its name, which stands in the APDU.
#[derive(Clone, Copy)]
pub struct Asked {
    pub invoke: u8,
    pub class: u16,
    pub wanted: Wanted,
}

// A plain APDU that was read: as a request, or as one for the next block of a long answer, after the block of this number.
#[derive(Clone, Copy)]
pub enum Reading {
    Asks(Asked),
    GoesOn { invoke: u8, number: u32 },
}

// The four numbers of an entry descriptor.
#[derive(Clone, Copy)]
pub struct Entries {
    pub from: u32,
    pub to: u32,
    pub from_column: u32,
    pub to_column: u32,
}

// The clocks of a range descriptor, each from its place.
#[derive(Clone, Copy)]
pub struct Range {
    pub from: Clock,
    pub to: Clock,
}
