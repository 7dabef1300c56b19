// Tags, release and exceptions. A writer requires room for its bytes and nothing else.
ghost use Rattle.std.specs.Prelude.{◌≡◌, ◌+◌, ◌≤◌, length};
ghost use Rattle.wire.specs.Wrote.{Wrote};
ghost use Rattle.cosem.specs.Tags.{answer_tag, dedicated_tag, exception_bytes, is_release, release_response, tag_in, tag_of};

use crate::{Exception, ServiceKind, Tag};

// The tag that a byte is.
#[tactic(auto, unfolding(crate::specs::Tags::tag_of))]
pub fn tag_of(first: u8) -> Tag
    ensures { result ≡ tag_of first }
{
    match first {
        0x60 => Tag::Aarq,
        0x62 => Tag::Rlrq,
        0xC0 => Tag::PlainRequest(ServiceKind::Get),
        0xC1 => Tag::PlainRequest(ServiceKind::Set),
        0xC3 => Tag::PlainRequest(ServiceKind::Action),
        0xCB => Tag::GlobalAction,
        0xD0 => Tag::DedicatedRequest(ServiceKind::Get),
        0xD1 => Tag::DedicatedRequest(ServiceKind::Set),
        0xD3 => Tag::DedicatedRequest(ServiceKind::Action),
        _ => Tag::Unknown,
    }
}

// The tag of an APDU.
#[tactic(auto, unfolding(crate::specs::Tags::tag_in))]
pub fn tag_in(apdu: &[u8]) -> Tag
    ensures { result ≡ tag_in apdu.now }
{
    match wire::number_at::<1>(apdu, 0) {
        Some((first, _)) => tag_of(first as u8),
        None => Tag::Unknown,
    }
}

// The tag byte of a request under the dedicated key, by its service.
pub fn dedicated_tag(kind: ServiceKind) -> u8
    ensures { result ≡ dedicated_tag kind }
{
    match kind {
        ServiceKind::Get => 0xD0,
        ServiceKind::Set => 0xD1,
        ServiceKind::Action => 0xD3,
    }
}

// The tag byte of its answer.
pub fn answer_tag(kind: ServiceKind) -> u8
    ensures { result ≡ answer_tag (dedicated_tag kind) }
{
    match kind {
        ServiceKind::Get => 0xD4,
        ServiceKind::Set => 0xD5,
        ServiceKind::Action => 0xD7,
    }
}

// Whether an APDU is the release request.
pub fn is_release(apdu: &[u8]) -> bool
    ensures { result ≡ is_release apdu.now }
{
    wire::same(apdu, b"\x62\x03\x80\x01\x00")
}

// The answer to a release.
pub fn put_release(out: &mut [u8], at: usize) -> usize
    requires { at + 5 ≤ length out.old }
    ensures { Wrote out.old at out.new result release_response }
{
    wire_write::put_all(out, at, b"\x63\x03\x80\x01\x00")
}

// An exception.
pub fn put_exception(out: &mut [u8], at: usize, e: Exception) -> usize
    requires { at + 3 ≤ length out.old }
    ensures { Wrote out.old at out.new result (exception_bytes e) }
{
    match e {
        Exception::ServiceNotAllowed => wire_write::put_all(out, at, b"\xD8\x01\x01"),
        Exception::ServiceUnknown => wire_write::put_all(out, at, b"\xD8\x02\x02"),
    }
}
