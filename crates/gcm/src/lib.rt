// AES-128-GCM (SP 800-38D, 7.1 and 7.2): sealing where the text stands, opening into a lent buffer, GMAC. A key is made ready
// once and used as often as it is wanted. Nonces and tags have twelve bytes. No public function here has a `requires`.
#![tactic(auto)]

ghost use Rattle.std.specs.Prelude.{◌≡◌, ◌≤◌, ◌++◌, length, drop};
ghost use Rattle.gcm.specs.Gcm.{hash_key, bit_length, lengths, tag, authentic, «gmac» as gmac_of, «ready» as ready_of};
ghost use Rattle.gcm.specs.Calls.{key_of, Sealed, Unsealed};

use aes::RoundKey;
use ghash::Block;

// A key made ready: its key schedule, as a struct holds it, and its hash subkey.
#[derive(Clone, Copy)]
pub struct ReadyKey {
    pub rounds: [RoundKey; 11],
    pub subkey: Block,
}

// Makes a key ready.
pub fn ready(key: [u8; 16]) -> ReadyKey
    ensures { key_of result ≡ ready_of key }
{
    let rounds = aes::round_keys(key);
    let subkey = hash_key(aes::schedule(rounds));
    ReadyKey { rounds, subkey }
}

// Seals the text where it stands, and returns the tag.
pub fn seal(key: ReadyKey, nonce: [u8; 12], aad: &[u8], text: &mut [u8]) -> [u8; 12]
    ensures { Sealed (key_of key) nonce aad.now text.old text.new result }
{
    gctr::encipher(key.schedule(), nonce, 2, text);
    key.tag(nonce, aad, text)
}

// Opens the cipher text c with the tag t into out: where the tag is right and c fits into out, the plain text stands in the
// first bytes of out; else out stays as it is. Answers which.
pub fn open_into(
    key: ReadyKey,
    nonce: [u8; 12],
    aad: &[u8],
    c: &[u8],
    t: &[u8],
    out: &mut [u8],
) -> bool
    ensures { Unsealed (key_of key) nonce aad.now c.now t.now out.old out.new result }
{
    if out.len() < c.len() || !key.matches(nonce, aad, c, t) {
        return false;
    }
    copy(c, out);
    gctr::encipher(key.schedule(), nonce, 2, &mut out[..c.len()]);
    true
}

// Lays the bytes of c into the first places of out. Not `copy_from_slice`, which needs memmove: firmware has none.
fn copy(c: &[u8], out: &mut [u8])
    requires { length c.now ≤ length out.old }
    ensures { out.new ≡ c.now ++ drop (length c.now) out.old }
{
    for (i, b) in c.iter().enumerate() {
        out[i] = *b;
    }
}

// Whether t is the tag of the cipher text c.
pub fn is_authentic(key: ReadyKey, nonce: [u8; 12], aad: &[u8], c: &[u8], t: &[u8]) -> bool
    ensures { result ≡ authentic (key_of key) nonce aad.now c.now t.now }
{
    key.matches(nonce, aad, c, t)
}

// The tag of associated data alone.
pub fn gmac(key: ReadyKey, nonce: [u8; 12], aad: &[u8]) -> [u8; 12]
    ensures { result ≡ gmac_of (key_of key) nonce aad.now }
{
    key.tag(nonce, aad, b"")
}

impl ReadyKey {
    fn schedule(&self) -> [[[u8; 4]; 4]; 11]
        ensures { result ≡ (key_of self.now).schedule }
    {
        aes::schedule(self.rounds)
    }

    // The tag of associated data and cipher text.
    fn tag(&self, nonce: [u8; 12], aad: &[u8], c: &[u8]) -> [u8; 12]
        ensures { result ≡ tag (key_of self.now) nonce aad.now c.now }
    {
        let hash = ghash::hash_parts(self.subkey, aad, c, lengths(aad, c));
        let mut s = ghash::bytes_of(hash);
        gctr::encipher(self.schedule(), nonce, 1, &mut s);
        wire::array_at(&s, 0)
    }

    // Whether t is the tag. Every byte is compared, wherever two differ.
    fn matches(&self, nonce: [u8; 12], aad: &[u8], c: &[u8], t: &[u8]) -> bool
        ensures { result ≡ authentic (key_of self.now) nonce aad.now c.now t.now }
    {
        let r = self.tag(nonce, aad, c);
        gcm_tag::is_same(r, t)
    }
}

// The hash subkey.
fn hash_key(w: [[[u8; 4]; 4]; 11]) -> Block
    ensures { result ≡ hash_key w }
{
    let b = aes::bytes_of(aes::encrypt_block(w, [[0; 4]; 4]));
    ghash::load(&b)
}

// The block of the lengths of associated data and cipher text.
fn lengths(aad: &[u8], c: &[u8]) -> Block
    ensures { result ≡ lengths aad.now c.now }
{
    u128::from(bit_length(aad)) * 0x1_0000_0000_0000_0000 + u128::from(bit_length(c))
}

// The length in bits, as a number of 64 bits.
fn bit_length(s: &[u8]) -> u64
    ensures { result ≡ bit_length s.now }
{
    (s.len() as u64).wrapping_mul(8)
}
