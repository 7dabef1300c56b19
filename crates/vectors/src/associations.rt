// The messages that open an association: read, and written.
//   Q: an AARQ, by the client whose link it comes on and the title held for that client
//   I: an opened initiate request
//   S: of the services proposed, those agreed with a client
//   P: the AARE that accepts a client, by services, client and the meter's title
//   H: the same up to its envelope, by the meter's challenge, client and the meter's title
//   N: the initiate response, by services
//   J: the AARE that rejects a client; the field before the client is empty
use crate::written::written;
use acse::{Aarq, InitiateRequest};
use model::{CipherClient, Client};
use std::io;
use text::{Hex, array, first};

fn read_aarq(s: &[u8], m: &[u8]) -> Option<Aarq> {
    acse::read_aarq(m, client(s), &array(s, 4))
}

pub fn aarq(printer: &impl Print, s: &[u8], m: &[u8]) -> io::Result<()> {
    match read_aarq(s, m) {
        Some(Aarq::Plain { services }) => found(printer, "services", m, services, 3),
        Some(
            Aarq::Ciphered {
                challenge,
                envelope,
            },
        ) => {
            found(printer, "challenge", m, challenge, 8)?;
            found(printer, ", envelope", m, envelope, m.len())
        }
        None => print!(printer; "departs"),
    }
}

pub fn request(printer: &impl Print, m: &[u8]) -> io::Result<()> {
    let Some(InitiateRequest { key, services }) = acse::read_request(m) else {
        return print!(printer; "departs");
    };
    found(printer, "key", m, key, 16)?;
    found(printer, ", services", m, services, 3)
}

// What was found in a message: so many bytes from a place on, and the place.
fn found(printer: &impl Print, word: &str, m: &[u8], at: usize, n: usize) -> io::Result<()> {
    print!(printer; "{word} {} at {at}", Hex(first(text::after(m, at), n)))
}

// Whether a message is an AARQ that is accepted.
pub fn is_aarq(s: &[u8], m: &[u8]) -> bool {
    read_aarq(s, m).is_some()
}

// Whether a message is an initiate request that is accepted.
pub fn is_request(m: &[u8]) -> bool {
    acse::read_request(m).is_some()
}

pub fn agreed(printer: &impl Print, s: &[u8]) -> io::Result<()> {
    print!(printer; "{}", Hex(&acse::agreed(client(s), services(s))))
}

pub fn accepted_plain(printer: &impl Print, s: &[u8]) -> io::Result<()> {
    written(printer, |out| {
        acse_write::put_accepted_plain(out, 0, client(s), &array(s, 4), &services(s))
    })
}

pub fn accepted_head(printer: &impl Print, s: &[u8]) -> io::Result<()> {
    written(printer, |out| {
        acse_write::put_accepted_head(out, 0, client(s), &array(s, 4), &array(s, 2))
    })
}

pub fn response(printer: &impl Print, s: &[u8]) -> io::Result<()> {
    written(
        printer,
        |out| acse_write::put_initiate_response(out, 0, &services(s)),
    )
}

pub fn rejected(printer: &impl Print, s: &[u8]) -> io::Result<()> {
    written(printer, |out| acse_write::put_rejected(out, 0, client(s)))
}

fn client(s: &[u8]) -> Client {
    match text::letter(text::field(s, 3)) {
        b'H' => Client::Ciphering(CipherClient::Han),
        _ => Client::Verification,
    }
}

fn services(s: &[u8]) -> [u8; 3] {
    array(s, 2)
}
