// An APDU on a link: whether the link is up, what the association permits, then by its tag. What goes down this road stays
// apart as parameters, since docs/ARCHITECTURE.md names its functions, and each promises a definition of just these.
ghost use Rattle.cosem.specs.Tags.{tag_in};
ghost use Rattle.line.specs.View.{line_of};
ghost use Rattle.protocol.specs.Decide.{by_tag, carried, conversed, released};
ghost use Rattle.replies.specs.Room.{HasRoom};
ghost use Rattle.ending.specs.Inner.{Hears, Ready, Tells};

use crate::links::refuse;
use asking::{ask_ciphered, ask_plain};
use cosem::{Exception, Tag};
use ending::{Heard, Told, alone, except};
use entering::{associate, hear_ciphered};
use hdlc::Head;
use line::LineState;
use meter::Meter;
use model::Client;
use protocol::Secrets;

// An APDU.
pub fn carry(
    meter: Meter,
    secrets: Secrets,
    client: Client,
    head: Head,
    apdu: &[u8],
    out: &mut [u8],
) -> Heard
    requires { Ready meter out.old }
    ensures { Hears (carried (line_of meter.line) secrets client head apdu.now) meter out.old out.new result }
{
    if !line::is_up(meter.line, client) {
        return alone(refuse(meter.line, head, out));
    }
    converse(meter, secrets, client, head, apdu, out)
}

// An APDU on a link that is up.
fn converse(
    meter: Meter,
    secrets: Secrets,
    client: Client,
    head: Head,
    apdu: &[u8],
    out: &mut [u8],
) -> Heard
    requires { Ready meter out.old }
    ensures { Hears (conversed (line_of meter.line) secrets client head apdu.now (tag_in apdu.now)) meter out.old out.new result }
{
    let line = meter.line;
    let tag = cosem::tag_in(apdu);
    if association::is_unknown(tag) {
        return alone(except(line, head, Exception::ServiceUnknown, out));
    }
    if !association::is_permitted(line, client, tag) {
        return alone(except(line, head, Exception::ServiceNotAllowed, out));
    }
    if !association::is_bit_agreed(line, client, tag) {
        return alone(except(line, head, Exception::ServiceNotAllowed, out));
    }
    by_tag(meter, secrets, client, head, apdu, tag, out)
}

// An APDU by its tag. `converse` has refused an unknown one before.
fn by_tag(
    meter: Meter,
    secrets: Secrets,
    client: Client,
    head: Head,
    apdu: &[u8],
    tag: Tag,
    out: &mut [u8],
) -> Heard
    requires { Ready meter out.old }
    ensures { Hears (by_tag (line_of meter.line) secrets client head apdu.now tag) meter out.old out.new result }
{
    let line = meter.line;
    match tag {
        Tag::Aarq => alone(associate(line, secrets, client, head, apdu, out)),
        Tag::Rlrq => alone(release(line, client, head, apdu, out)),
        Tag::PlainRequest(kind) => ask_plain(meter, client, head, kind, apdu, out),
        Tag::GlobalAction => { alone(hear_ciphered(line, secrets, client, head, apdu, out)) }
        Tag::DedicatedRequest(kind) => {
            ask_ciphered(meter, secrets, client, head, kind, apdu, out)
        }
        Tag::Unknown => alone(except(line, head, Exception::ServiceUnknown, out)),
    }
}

// RLRQ: the association ends.
fn release(line: LineState, client: Client, head: Head, apdu: &[u8], out: &mut [u8]) -> Told
    requires { HasRoom out.old }
    ensures { Tells (released (line_of line) client head apdu.now) line out.old out.new result }
{
    if !cosem::is_release(apdu) {
        return except(line, head, Exception::ServiceUnknown, out);
    }
    Told {
        refusal: 0,
        count: replies::send_release(out, head),
        line: association::ended(line, client),
    }
}
