// What the line tells of a client, and a client's part of it replaced.
ghost use Rattle.std.specs.Prelude.{◌≡◌};
ghost use Rattle.model.specs.Clients.{counters, held, peer};
ghost use Rattle.model.specs.Soundness.{has_agreed, takes_blocks};
ghost use Rattle.line.specs.Canonical.{agreed_in, client_challenge, key_in, meter_challenge};
ghost use Rattle.line.specs.Parties.{party_of, with_cipher};
ghost use Rattle.line.specs.View.{cipher_of, line_of};

use crate::{CipherParty, LineState, Party, Phase, while_pending, while_standing};
use model::{CipherClient, Client, Counters};

// Whether the client's link is up.
pub fn is_up(line: LineState, client: Client) -> bool
    ensures { result ≡ (peer client (line_of line)).up }
{
    party_of(line, client).up
}

// The client's title.
pub fn title_of(line: LineState, client: Client) -> [u8; 8]
    ensures { result ≡ (peer client (line_of line)).title }
{
    party_of(line, client).title
}

// The counters of a client that ciphers.
pub fn counters_of(line: LineState, client: CipherClient) -> Counters
    ensures { result ≡ counters client (line_of line) }
{
    match client {
        CipherClient::Han => line.han.counters,
    }
}

// The client's challenge.
pub fn client_challenge(line: LineState, client: CipherClient) -> [u8; 8]
    ensures { result ≡ client_challenge (held client (line_of line)) }
{
    let h = cipher_of(line, client);
    while_pending(h.party.phase, h.client)
}

// The meter's challenge to the client.
pub fn meter_challenge(line: LineState, client: CipherClient) -> [u8; 8]
    ensures { result ≡ meter_challenge (held client (line_of line)) }
{
    let h = cipher_of(line, client);
    while_pending(h.party.phase, h.meter)
}

// The services agreed with the client; zeros where it has no association.
pub fn agreed_in(line: LineState, client: Client) -> [u8; 3]
    ensures { result ≡ agreed_in (peer client (line_of line)).association }
{
    let p = party_of(line, client);
    while_standing(p.phase, p.agreed)
}

// Whether H is associated, with this service agreed.
pub fn has_agreed(line: LineState, service: [u8; 3]) -> bool
    ensures { result ≡ has_agreed service (line_of line) }
{
    let p = line.han.party;
    p.phase == Phase::Associated && crate::is_within(service, p.agreed)
}

// Whether H can ask for a read in blocks: GET and block transfer were agreed.
pub fn takes_blocks(line: LineState) -> bool
    ensures { result ≡ takes_blocks (line_of line) }
{
    has_agreed(line, [0x00, 0x00, 0x10]) && has_agreed(line, [0x00, 0x10, 0x00])
}

// The dedicated key of a client that ciphers; zeros where it has no association.
pub fn key_in(line: LineState, client: CipherClient) -> [u8; 16]
    ensures { result ≡ key_in (held client (line_of line)) }
{
    let h = cipher_of(line, client);
    while_standing(h.party.phase, h.key)
}

// The client's party.
pub fn party_of(line: LineState, client: Client) -> Party
    ensures { result ≡ party_of client line }
{
    match client {
        Client::Verification => line.verification,
        Client::Ciphering(c) => cipher_of(line, c).party,
    }
}

// The part of a client that ciphers.
pub fn cipher_of(line: LineState, client: CipherClient) -> CipherParty
    ensures { result ≡ cipher_of client line }
{
    match client {
        CipherClient::Han => line.han,
    }
}

// The line with this party of V.
pub fn with_verification(line: LineState, verification: Party) -> LineState
    ensures { result ≡ record { title = line.title; verification = verification; han = line.han; p5 = line.p5 } }
{
    LineState {
        verification,
        ..line
    }
}

// The line with this part of a client that ciphers.
pub fn with_cipher(line: LineState, client: CipherClient, part: CipherParty) -> LineState
    ensures { result ≡ with_cipher client part line }
{
    match client {
        CipherClient::Han => LineState { han: part, ..line },
    }
}
