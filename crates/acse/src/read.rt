// The AARQ and the initiate request, read: every slice either is the pattern of specs/, or there is none.
ghost use Rattle.std.specs.Prelude.{◌≡◌};
ghost use Rattle.acse.specs.Pieces.{is_whole, passed};
ghost use Rattle.acse.specs.Initiate.{keyed_request, read_request, request_end};
ghost use Rattle.acse.specs.Aarq.{aarq_start, ciphered_aarq, mechanism_pieces, plain_aarq, read_aarq};

use crate::clients::{ciphers, context_name, mechanism_name};
use crate::{Aarq, InitiateRequest};
use model::Client;

// The least size that a client may propose.
const LEAST_SIZE: u32 = 768;

// What an AARQ asks for, from a client whose title is held.
#[tactic(auto, unfolding(crate::specs::Aarq::read_aarq, crate::specs::Pieces::is_laid))]
pub fn read_aarq(s: &[u8], client: Client, title: &[u8; 8]) -> Option<Aarq>
    ensures { result ≡ read_aarq s.now client title.now }
{
    if ciphers(client) {
        if !ends(s, ciphered_aarq_end(s, client, title)) {
            return None;
        }
        return Some(Aarq::Ciphered {
            challenge: 42,
            envelope: 54,
        });
    }
    if !ends(s, plain_aarq_end(s, client, title)) {
        return None;
    }
    Some(Aarq::Plain { services: 47 })
}

// The text of an opened envelope, as the initiate request of a client that ciphers.
#[tactic(auto, unfolding(crate::specs::Initiate::read_request, crate::specs::Pieces::is_laid))]
pub fn read_request(s: &[u8]) -> Option<InitiateRequest>
    ensures { result ≡ read_request s.now }
{
    if !ends(s, keyed_request_end(s)) {
        return None;
    }
    Some(InitiateRequest {
        key: 3,
        services: 26,
    })
}

// Whether what was passed is the whole slice.
fn ends(s: &[u8], passed: Option<usize>) -> bool
    ensures { result ≡ is_whole passed s.now }
{
    match passed {
        Some(end) => end == s.len(),
        None => false,
    }
}

// Past the AARQ of a client that does not cipher.
fn plain_aarq_end(s: &[u8], client: Client, title: &[u8; 8]) -> Option<usize>
    ensures { result ≡ passed (plain_aarq client title.now) s.now 0 }
{
    let mechanism = start_end(s, 0x32, client, title)?;
    let information = mechanism_end(s, mechanism, client)?;
    let request = wire::expect_at(s, information, b"\xBE\x10\x04\x0E")?;
    let present = wire::expect_at(s, request, b"\x01")?;
    let rest = wire::expect_at(s, present, b"\x00")?;
    request_end(s, rest)
}

// Past the AARQ of a client that ciphers, with any bytes for challenge and envelope.
fn ciphered_aarq_end(s: &[u8], client: Client, title: &[u8; 8]) -> Option<usize>
    ensures { result ≡ passed (ciphered_aarq client title.now) s.now 0 }
{
    let requirements = start_end(s, 0x66, client, title)?;
    let mechanism = wire::expect_at(s, requirements, b"\x8A\x02\x07\x80")?;
    let value = mechanism_end(s, mechanism, client)?;
    let challenge = wire::expect_at(s, value, b"\xAC\x0A\x80\x08")?;
    let information = wire::skip_at(s, challenge, 8)?;
    let envelope = wire::expect_at(s, information, b"\xBE\x34\x04\x32")?;
    wire::skip_at(s, envelope, 50)
}

// Past the initiate request of a client that ciphers.
#[tactic(auto, unfolding(crate::specs::Pieces::passed))]
fn keyed_request_end(s: &[u8]) -> Option<usize>
    ensures { result ≡ passed keyed_request s.now 0 }
{
    let present = wire::expect_at(s, 0, b"\x01")?;
    let key = wire::expect_at(s, present, b"\x01\x10")?;
    let rest = wire::skip_at(s, key, 16)?;
    request_end(s, rest)
}

// Past tag and length, context name and calling title.
#[tactic(auto, unfolding(crate::specs::Pieces::passed))]
fn start_end(s: &[u8], size: u8, client: Client, title: &[u8; 8]) -> Option<usize>
    ensures { result ≡ passed (aarq_start size client title.now) s.now 0 }
{
    let context = wire::expect_at(s, 0, &[0x60, size])?;
    let name = wire::expect_at(s, context, b"\xA1\x09\x06\x07")?;
    let calling = wire::expect_at(s, name, &context_name(client))?;
    let held = wire::expect_at(s, calling, b"\xA6\x0A\x04\x08")?;
    wire::expect_at(s, held, title)
}

// Past the mechanism name.
#[tactic(auto, unfolding(crate::specs::Pieces::passed))]
fn mechanism_end(s: &[u8], at: usize, client: Client) -> Option<usize>
    ensures { result ≡ passed (mechanism_pieces client) s.now at }
{
    let name = wire::expect_at(s, at, b"\x8B\x07")?;
    wire::expect_at(s, name, &mechanism_name(client))
}

// Past what follows the dedicated key of an initiate request.
#[tactic(auto, unfolding(crate::specs::Pieces::passed))]
fn request_end(s: &[u8], at: usize) -> Option<usize>
    ensures { result ≡ passed request_end s.now at }
{
    let conformance = wire::expect_at(s, at, b"\x00\x00\x06")?;
    let services = wire::expect_at(s, conformance, b"\x5F\x1F\x04\x00")?;
    let size = wire::skip_at(s, services, 3)?;
    let (value, next) = wire::number_at::<2>(s, size)?;
    if value < LEAST_SIZE {
        return None;
    }
    Some(next)
}
