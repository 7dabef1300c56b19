// GCTR (SP 800-38D, 6.5) over AES-128, on the bytes where they stand.
#![tactic(auto)]

ghost use Rattle.std.specs.Prelude.{◌≡◌, ◌≤◌, length};
ghost use Rattle.gctr.specs.Gctr.{counter_block, stream_block, xor_with, gctr};

// GCTR of the bytes of s from the counter c on, under the key schedule w. It enciphers, and deciphers as well.
pub fn encipher(w: [[[u8; 4]; 4]; 11], nonce: [u8; 12], c: u32, s: &mut [u8])
    ensures { s.new ≡ gctr w nonce c s.old }
{
    let n = s.len();
    let mut k = c;
    // By places: after a loop over `chunks_mut` a proof knows nothing of what was written.
    for at in (0..n).step_by(16) {
        let end = n.min(at + 16);
        mask(&mut s[at..end], stream_block(w, nonce, k));
        k = k.wrapping_add(1);
    }
}

// The cipher of the counter block.
fn stream_block(w: [[[u8; 4]; 4]; 11], nonce: [u8; 12], c: u32) -> [u8; 16]
    ensures { result ≡ stream_block w nonce c }
{
    aes::bytes_of(aes::encrypt_block(w, counter_block(nonce, c)))
}

// The counter block of a nonce and a counter.
fn counter_block(nonce: [u8; 12], c: u32) -> [[u8; 4]; 4]
    ensures { result ≡ counter_block nonce c }
{
    [
        [nonce[0], nonce[1], nonce[2], nonce[3]],
        [nonce[4], nonce[5], nonce[6], nonce[7]],
        [nonce[8], nonce[9], nonce[10], nonce[11]],
        c.to_be_bytes(),
    ]
}

// The bytes of s, sixteen at most, each xored with the byte of ks at its place.
fn mask(s: &mut [u8], ks: [u8; 16])
    requires { length s.old ≤ 16 }
    ensures { s.new ≡ xor_with s.old ks }
{
    for (i, x) in s.iter_mut().enumerate() {
        *x ^= ks[i];
    }
}
