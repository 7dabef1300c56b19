// Replies in an envelope: the text is laid out behind the room for the head of its envelope, and sealed where it stands.
ghost use Rattle.std.specs.Prelude.{◌++◌, ◌+◌, ◌≤◌, drop, take};
ghost use Rattle.model.specs.Limits.{longest_sent, text_room};
ghost use Rattle.model.specs.Objects.{action_answer, denied};
ghost use Rattle.hdlc.specs.Replies.{apdu_frame, Sent};
ghost use Rattle.acse.specs.Aare.{ciphered_aare_head};
ghost use Rattle.acse.specs.Initiate.{initiate_response};
ghost use Rattle.material.specs.Material.{keys_of};
ghost use Rattle.envelope.specs.Layout.{head_size, sealed_envelope};
ghost use Rattle.protocol.specs.Rulings.{proved_text};
ghost use Rattle.replies.specs.Room.{HasRoom};

use crate::{APDU_AT, TEXT_AT};
use hdlc::Head;
use material::ReadyKeys;
use model::Client;

// How many bytes each text has that is not the caller's: an initiate response, an answer with a proof, one that denies.
const RESPONSE_SIZE: usize = 14;

const PROVED_SIZE: usize = 25;

const DENIED_SIZE: usize = 5;

// The AARE that accepts a client that ciphers, with the initiate response in its envelope.
pub fn send_accepted_ciphered(
    out: &mut [u8],
    head: Head,
    client: Client,
    keys: ReadyKeys,
    title: [u8; 8],
    challenge: [u8; 8],
    agreed: [u8; 3],
    counter: u32,
) -> usize
    requires { HasRoom out.old }
    ensures { Sent (apdu_frame head (ciphered_aare_head client title challenge ++ sealed_envelope (keys_of keys) title 0x28 counter (initiate_response agreed))) out.old out.new result }
{
    let at = hdlc_write::put_llc(out);
    let start = acse_write::put_accepted_head(out, at, client, &title, &challenge);
    let text = start + envelope::head_size(RESPONSE_SIZE);
    acse_write::put_initiate_response(out, text, &agreed);
    let end = envelope::close_envelope(out, start, keys, title, 0x28, counter, RESPONSE_SIZE);
    hdlc_write::put_data(out, head, end)
}

// The answer to a right proof: the meter's own over this challenge of the client, under the counter `first`, in an envelope
// under `second`.
pub fn send_proof(
    out: &mut [u8],
    head: Head,
    keys: ReadyKeys,
    title: [u8; 8],
    challenge: [u8; 8],
    invoke: u8,
    first: u32,
    second: u32,
) -> usize
    requires { HasRoom out.old }
    ensures { Sent (apdu_frame head (sealed_envelope (keys_of keys) title 0xCF second (proved_text (keys_of keys) title challenge invoke first))) out.old out.new result }
{
    let text = APDU_AT + envelope::head_size(PROVED_SIZE);
    let value = wire_write::put_all(out, text, &[0xC7, 0x01, invoke, 0x00, 0x01, 0x00]);
    envelope::put_proof(out, value, keys, title, challenge, first);
    close_and_send(out, head, keys, title, 0xCF, second, PROVED_SIZE)
}

// The answer to an ACTION that is denied with this code. Any code: the promise is of every number.
pub fn send_denial(
    out: &mut [u8],
    head: Head,
    keys: ReadyKeys,
    title: [u8; 8],
    invoke: u8,
    code: u8,
    counter: u32,
) -> usize
    requires { HasRoom out.old }
    ensures { Sent (apdu_frame head (sealed_envelope (keys_of keys) title 0xCF counter (action_answer invoke (denied code)))) out.old out.new result }
{
    let text = APDU_AT + envelope::head_size(DENIED_SIZE);
    wire_write::put_all(out, text, &[0xC7, 0x01, invoke, code, 0x00]);
    close_and_send(out, head, keys, title, 0xCF, counter, DENIED_SIZE)
}

// The text of `n` bytes that stands in `out` at `TEXT_AT`, in an envelope. Where the head of its envelope is shorter, the text
// is moved down behind it first.
pub fn send_enclosed(
    out: &mut [u8],
    head: Head,
    keys: ReadyKeys,
    title: [u8; 8],
    tag: u8,
    counter: u32,
    n: usize,
) -> usize
    requires { (HasRoom out.old) × (n ≤ text_room longest_sent) }
    ensures { Sent (apdu_frame head (sealed_envelope (keys_of keys) title tag counter (take n (drop 20 out.old)))) out.old out.new result }
{
    let text = APDU_AT + envelope::head_size(n);
    wire_write::move_down(out, TEXT_AT, text, n);
    close_and_send(out, head, keys, title, tag, counter, n)
}

// The envelope around the `n` bytes of text that stand behind its head, which begins at `APDU_AT`.
fn close_and_send(
    out: &mut [u8],
    head: Head,
    keys: ReadyKeys,
    title: [u8; 8],
    tag: u8,
    counter: u32,
    n: usize,
) -> usize
    requires { (HasRoom out.old) × (n ≤ text_room longest_sent) }
    ensures { Sent (apdu_frame head (sealed_envelope (keys_of keys) title tag counter (take n (drop (11 + head_size n) out.old)))) out.old out.new result }
{
    let at = hdlc_write::put_llc(out);
    let end = envelope::close_envelope(out, at, keys, title, tag, counter, n);
    hdlc_write::put_data(out, head, end)
}
