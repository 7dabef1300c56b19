// What the messages have by client: whether it ciphers, its object identifiers, the services that it is offered. A further
// client that ciphers is one line more in the last.
ghost use Rattle.std.specs.Prelude.{◌≡◌};
ghost use Rattle.model.specs.declared.Client.TheVariants.{Ciphering};
ghost use Rattle.model.specs.Services.{common, offered};
ghost use Rattle.acse.specs.Clients.{«ciphers» as ciphering_of, context_name, mechanism_name};

use model::{CipherClient, Client};

// Whether the client ciphers.
pub fn ciphers(client: Client) -> bool
    ensures { result ≡ ciphering_of client }
{
    match client {
        Client::Verification => false,
        Client::Ciphering(_) => true,
    }
}

// The application context name.
pub fn context_name(client: Client) -> [u8; 7]
    ensures { result ≡ context_name client }
{
    match client {
        Client::Verification => *b"\x60\x85\x74\x05\x08\x01\x01",
        Client::Ciphering(_) => *b"\x60\x85\x74\x05\x08\x01\x03",
    }
}

// The mechanism name.
pub fn mechanism_name(client: Client) -> [u8; 7]
    ensures { result ≡ mechanism_name client }
{
    match client {
        Client::Verification => *b"\x60\x85\x74\x05\x08\x02\x00",
        Client::Ciphering(_) => *b"\x60\x85\x74\x05\x08\x02\x05",
    }
}

// The services that the client is offered.
fn offered_services(client: Client) -> [u8; 3]
    ensures { result ≡ offered client }
{
    match client {
        Client::Verification => *b"\x00\x00\x14",
        Client::Ciphering(c) => offered_ciphering(c),
    }
}

// Those of a client that ciphers.
fn offered_ciphering(client: CipherClient) -> [u8; 3]
    ensures { result ≡ offered (Ciphering client) }
{
    match client {
        CipherClient::Han => *b"\x00\x10\x15",
    }
}

// The services that are both proposed and offered.
pub fn agreed(client: Client, proposed: [u8; 3]) -> [u8; 3]
    ensures { result ≡ common proposed (offered client) }
{
    let offer = offered_services(client);
    [
        proposed[0] & offer[0],
        proposed[1] & offer[1],
        proposed[2] & offer[2],
    ]
}
