// The messages that open an association: what they have by client, and the AARQ read, with the initiate request inside it.
// specs/ has their layouts, also those of the AARE and the initiate response, which the crate acse_write writes. What is in
// an envelope belongs to the crate envelope: here stands where it begins.
#![tactic(auto)]

mod clients;
mod read;

pub use clients::{agreed, ciphers, context_name, mechanism_name};
pub use read::{read_aarq, read_request};

// What a received AARQ asks for.
#[derive(Clone, Copy)]
pub enum Aarq {
    // From a client that does not cipher, accepted: the place of the three bytes of proposed services.
    Plain { services: usize },
    // From a client that ciphers, right up to its envelope: the places of the eight bytes of its challenge, and of the
    // envelope, which goes to the end.
    Ciphered { challenge: usize, envelope: usize },
}

// The opened initiate request of a client that ciphers: the places of the sixteen bytes of its dedicated key, and of the three
// bytes of proposed services.
#[derive(Clone, Copy)]
pub struct InitiateRequest {
    pub key: usize,
    pub services: usize,
}
