// Requests, values, release and exceptions. Of an APDU: G, what it is read as by GET, and A, by ACTION; T, its tag; R, whether it is
// the release. Of a value: V, where it ends; D, the entry descriptor that it is. Of nothing: Y, the answer to a release; X, the two
// exceptions.
use crate::written::{written, yes_or_no};
use cosem::{Asked, Entries, Exception, Reading, ServiceKind, Tag, Wanted};
use std::io;
use text::Hex;

pub fn get(printer: &impl Print, apdu: &[u8]) -> io::Result<()> {
    reading(printer, apdu, cosem::read_service(ServiceKind::Get, apdu))
}

pub fn action(printer: &impl Print, apdu: &[u8]) -> io::Result<()> {
    reading(printer, apdu, cosem::read_action(apdu))
}

// Of a request for a block: invoke byte, and the number of the block received last.
fn reading(printer: &impl Print, apdu: &[u8], r: Option<Reading>) -> io::Result<()> {
    match r {
        Some(Reading::Asks(q)) => asked(printer, apdu, q),
        Some(Reading::GoesOn { invoke, number }) => print!(printer;
            "{invoke:02X}, after block {number}"
        ),
        None => print!(printer; "malformed"),
    }
}

// Invoke byte, class and name, and what is wanted.
fn asked(printer: &impl Print, apdu: &[u8], q: Asked) -> io::Result<()> {
    let name = cosem::name_in(apdu);
    print!(printer; "{:02X} {:04X} {}", q.invoke, q.class, Hex(&name.bytes))?;
    match q.wanted {
        Wanted::Read { attribute } => print!(printer; ", attribute {attribute:02X}"),
        Wanted::ReadSelected {
            attribute,
            selector,
            at,
        } => print!(printer; ", attribute {attribute:02X}, selector {selector:02X}, value at {at}"),
        Wanted::Invoke { method } => print!(printer; ", method {method:02X}"),
        Wanted::InvokeWith { method, at } => print!(printer;
            ", method {method:02X}, value at {at}"
        ),
    }
}

pub fn tag(printer: &impl Print, apdu: &[u8]) -> io::Result<()> {
    match cosem::tag_in(apdu) {
        Tag::Aarq => print!(printer; "AARQ"),
        Tag::Rlrq => print!(printer; "RLRQ"),
        Tag::PlainRequest(kind) => print!(printer; "{}", name_of(kind)),
        Tag::GlobalAction => print!(printer; "glo ACTION"),
        Tag::DedicatedRequest(kind) => print!(printer; "ded {}", name_of(kind)),
        Tag::Unknown => print!(printer; "unknown"),
    }
}

fn name_of(kind: ServiceKind) -> &'static str {
    match kind {
        ServiceKind::Get => "GET",
        ServiceKind::Set => "SET",
        ServiceKind::Action => "ACTION",
    }
}

pub fn release(printer: &impl Print, apdu: &[u8]) -> io::Result<()> {
    yes_or_no(printer, cosem::is_release(apdu))
}

pub fn value(printer: &impl Print, m: &[u8]) -> io::Result<()> {
    let Some(e) = axdr::value_end(m, 0) else {
        return print!(printer; "none");
    };
    print!(printer; "ends at {e}")
}

pub fn entries(printer: &impl Print, m: &[u8]) -> io::Result<()> {
    let Some(
        Entries {
            from,
            to,
            from_column,
            to_column,
        },
    ) = cosem::entries_at(m, 0)
    else {
        return print!(printer; "none");
    };
    print!(printer; "rows {from} to {to}, columns {from_column} to {to_column}")
}

pub fn released(printer: &impl Print) -> io::Result<()> {
    written(printer, |out| cosem::put_release(out, 0))
}

pub fn exceptions(printer: &impl Print) -> io::Result<()> {
    written(printer, |out| {
        let next = cosem::put_exception(out, 0, Exception::ServiceNotAllowed);
        cosem::put_exception(out, next, Exception::ServiceUnknown)
    })
}
