// What GCM is given besides the text: keys made ready, nonce, associated data of an envelope and of a proof (document 01, "The
// envelope and its counters"). No function here has a `requires`.
#![tactic(auto)]

ghost use Rattle.std.specs.Prelude.{◌≡◌};
ghost use Rattle.material.specs.Material.{associated_data, keys_from, keys_of, «nonce» as nonce_of, proof_data};

use gcm::ReadyKey;

// The keys that envelopes go under, made ready: "GUK" or the dedicated key of the association, and "AK".
#[derive(Clone, Copy)]
pub struct ReadyKeys {
    pub key: ReadyKey,
    pub ak: [u8; 16],
}

// Makes keys ready.
pub fn ready_keys(key: [u8; 16], ak: [u8; 16]) -> ReadyKeys
    ensures { keys_of result ≡ keys_from key ak }
{
    let key = gcm::ready(key);
    ReadyKeys { key, ak }
}

// The sender's title and the counter.
pub fn nonce(title: [u8; 8], counter: u32) -> [u8; 12]
    ensures { result ≡ nonce_of title counter }
{
    let mut n = [0u8; 12];
    let at = wire_write::put_array(&mut n, 0, &title);
    wire_write::put_number::<4>(&mut n, at, counter);
    n
}

// The associated data of an envelope: 30 and AK.
pub fn associated_data(keys: ReadyKeys) -> [u8; 17]
    ensures { result ≡ associated_data (keys_of keys) }
{
    let ak = keys.ak;
    let mut data = [0u8; 17];
    let at = wire_write::put(&mut data, 0, 0x30);
    wire_write::put_array(&mut data, at, &ak);
    data
}

// The associated data of a proof: 10, AK and the challenge.
pub fn proof_data(keys: ReadyKeys, challenge: [u8; 8]) -> [u8; 25]
    ensures { result ≡ proof_data (keys_of keys) challenge }
{
    let ak = keys.ak;
    let mut data = [0u8; 25];
    let a = wire_write::put(&mut data, 0, 0x10);
    let b = wire_write::put_array(&mut data, a, &ak);
    wire_write::put_array(&mut data, b, &challenge);
    data
}
