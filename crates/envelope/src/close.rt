// Closing: the text stands in the buffer behind the room for its head. The head is written before it, the text is sealed where
// it stands, and the GCM tag is written behind it.
ghost use Rattle.std.specs.Prelude.{◌≡◌, ◌+◌, ◌≤◌, drop, length, take};
ghost use Rattle.wire.specs.Wrote.{Wrote};
ghost use Rattle.model.specs.Limits.{envelope_length};
ghost use Rattle.material.specs.Material.{keys_of};
ghost use Rattle.envelope.specs.Layout.{counted_length, head, head_size, sealed_envelope};

use material::{ReadyKeys, associated_data, nonce};

// How many bytes stand before a text of `n` bytes.
pub fn head_size(n: usize) -> usize
    requires { counted_length n ≤ 65535 }
    ensures { result ≡ head_size n }
{
    6 + wire_write::length_size(n + 17)
}

// Closes the envelope around the `n` bytes of text that stand in `out` behind its head, which begins at `at`.
pub fn close_envelope(
    out: &mut [u8],
    at: usize,
    keys: ReadyKeys,
    title: [u8; 8],
    tag: u8,
    counter: u32,
    n: usize,
) -> usize
    requires { (counted_length n ≤ 65535) × (at + envelope_length n ≤ length out.old) }
    ensures { Wrote out.old at out.new result (sealed_envelope (keys_of keys) title tag counter (take n (drop (at + head_size n) out.old))) }
{
    let start = put_head(out, at, tag, counter, n);
    let end = start + n;
    let v = nonce(title, counter);
    let data = associated_data(keys);
    let t = gcm::seal(keys.key, v, &data, &mut out[start..end]);
    wire_write::put_array(out, end, &t)
}

// What stands before a text of `n` bytes.
fn put_head(out: &mut [u8], at: usize, tag: u8, counter: u32, n: usize) -> usize
    requires { (counted_length n ≤ 65535) × (at + head_size n ≤ length out.old) }
    ensures { Wrote out.old at out.new result (head tag counter n) }
{
    let a = wire_write::put(out, at, tag);
    let b = wire_write::put_length(out, a, n + 17);
    let c = wire_write::put(out, b, 0x30);
    wire_write::put_number::<4>(out, c, counter)
}
