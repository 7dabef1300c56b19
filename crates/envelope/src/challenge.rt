// The proofs of the challenge: the client's tested, the meter's made.
ghost use Rattle.std.specs.Prelude.{◌≡◌, ◌+◌, ◌≤◌, length};
ghost use Rattle.wire.specs.Wrote.{Wrote};
ghost use Rattle.material.specs.Material.{keys_of};
ghost use Rattle.envelope.specs.Challenge.{proof_size, proof_value, right_proof};

use material::{ReadyKeys, nonce, proof_data};
use model::Counters;

// Whether a parameter's value is the proof of the client with this title over this challenge of the meter, in an envelope with
// the counter `outer`.
pub fn is_right_proof(
    keys: ReadyKeys,
    title: [u8; 8],
    challenge: [u8; 8],
    pair: Counters,
    outer: u32,
    value: &[u8],
) -> bool
    ensures { result ≡ right_proof (keys_of keys) title challenge pair.accepted outer value.now }
{
    let Some(a) = wire::expect_at(value, 0, b"\x09\x11\x10") else {
        return false;
    };
    let Some((inner, b)) = wire::number_at::<4>(value, a) else {
        return false;
    };
    if !counters::is_inner_allowed(pair, outer, inner) {
        return false;
    }
    let n = nonce(title, inner);
    let data = proof_data(keys, challenge);
    gcm::is_authentic(keys.key, n, &data, b"", &value[b..])
}

// Writes the proof of the meter with this title over this challenge of the client, as a value.
pub fn put_proof(
    out: &mut [u8],
    at: usize,
    keys: ReadyKeys,
    title: [u8; 8],
    challenge: [u8; 8],
    counter: u32,
) -> usize
    requires { at + proof_size ≤ length out.old }
    ensures { Wrote out.old at out.new result (proof_value (keys_of keys) title challenge counter) }
{
    let n = nonce(title, counter);
    let data = proof_data(keys, challenge);
    let t = gcm::gmac(keys.key, n, &data);
    let a = wire_write::put_all(out, at, b"\x09\x11\x10");
    let b = wire_write::put_number::<4>(out, a, counter);
    wire_write::put_array(out, b, &t)
}
