// GHASH (SP 800-38D, 6.3 and 6.4). The product goes four bits at a time, by two tables: the products of the hash subkey, made
// once a message, and the feedback of four shifts.
#![tactic(auto)]

ghost use Rattle.std.specs.Prelude.{◌≡◌, ℕ, [], ◌∷◌, ◌++◌, ◌<◌, get_or};
ghost use Rattle.gf2.specs.Shift.{step, steps};
ghost use Rattle.ghash.specs.Product.{R, product};
ghost use Rattle.ghash.specs.Nibble.{turns_from, sums_of, Products, Feedback};
ghost use Rattle.ghash.specs.Hash.{block, blocks, ghash_from, ghash, block_bytes};

// A block: the number that its bits spell, the first bit the highest.
pub type Block = u128;

// A block to multiply by, and its products by each number of four bits.
#[derive(Drop)]
struct Factor {
    block: Block,
    products: [Block; 16],
    ghost right: { Products block products },
}

// GHASH of the blocks of a, of those of c and of the block n, under the hash subkey h.
pub fn hash_parts(h: Block, a: &[u8], c: &[u8], n: Block) -> Block
    ensures { result ≡ ghash h (blocks a.now ++ (blocks c.now ++ (n ∷ []))) }
{
    let subkey = Factor::of(h);
    let x = subkey.absorb_all(0, a);
    let y = subkey.absorb_all(x, c);
    subkey.times(y ^ n)
}

impl Factor {
    fn of(block: Block) -> Factor
        ensures { result.block ≡ block }
    {
        let b = times_x(block);
        let c = times_x(b);
        let d = times_x(c);
        Factor {
            block,
            products: sums(block, b, c, d),
        }
    }

    // The turns of GHASH with the blocks of s, from the block y on.
    fn absorb_all(&self, y: Block, s: &[u8]) -> Block
        ensures { result ≡ ghash_from self.now.block y (blocks s.now) }
    {
        let mut acc = y;
        for part in s.chunks(16) {
            acc = self.times(acc ^ load(part));
        }
        acc
    }

    // The product of x and the block: the turns over both words of x, its last word first, from 0 on.
    fn times(&self, x: Block) -> Block
        ensures { result ≡ product x self.now.block }
    {
        let last = self.word_turns(0, (x % 0x1_0000_0000_0000_0000) as u64);
        self.word_turns(last, (x >> 64) as u64)
    }

    // The turns over a word, its last bits first, from the block z on. A loop over words and not over the sixteen bytes of a
    // block, since the compiler unrolls it: 320 instructions a block for 436.
    fn word_turns(&self, z: Block, w: u64) -> Block
        ensures { result ≡ turns_from z 64 w self.now.block }
    {
        let mut r = z;
        for i in 0..16u32 {
            r = self.turns(r, (w >> (4 * i)) % 16);
        }
        r
    }

    // The turns over the four bits of n, from the block z on.
    fn turns(&self, z: Block, n: u64) -> Block
        requires { n < 16 }
        ensures { result ≡ turns_from z 4 n self.now.block }
    {
        self.products[n as usize] ^ times_x4(z)
    }
}

// The exclusive ors of four blocks, for each choice of them; the bits of a place say which, a's bit the highest.
fn sums(a: Block, b: Block, c: Block, d: Block) -> [Block; 16]
    ensures { result ≡ sums_of a b c d }
{
    [
        0,
        d,
        c,
        c ^ d,
        b,
        b ^ d,
        b ^ c,
        b ^ (c ^ d),
        a,
        a ^ d,
        a ^ c,
        a ^ (c ^ d),
        a ^ b,
        a ^ (b ^ d),
        a ^ (b ^ c),
        a ^ (b ^ (c ^ d)),
    ]
}

// The product by x: a shift to the right, and R where a 1 falls out.
fn times_x(b: Block) -> Block
    ensures { result ≡ step R b }
{
    if b % 2 == 0 {
        b / 2
    } else {
        (b / 2) ^ 0xe100_0000_0000_0000_0000_0000_0000_0000
    }
}

// The product by x four times: a shift by four, and what the table has of the bits that fall out.
fn times_x4(b: Block) -> Block
    ensures { result ≡ steps R 4 b }
{
    let fed = feedback()[(b % 16) as usize];
    (b / 16) ^ (u128::from(fed) << 64)
}

// The first sixteen bytes as a block; a byte past the end is 0.
pub fn load(s: &[u8]) -> Block
    ensures { result ≡ block s.now }
{
    match s.first_chunk() {
        Some(whole) => u128::from_be_bytes(*whole),
        None => u128::from_be_bytes(padded(s)),
    }
}

// The first sixteen bytes; a byte past the end is 0.
fn padded(s: &[u8]) -> [u8; 16]
    ensures { (k : ℕ) → k < 16 → get_or result k 0 ≡ get_or s.now k 0 }
{
    let mut b = [0; 16];
    for (i, x) in b.iter_mut().enumerate() {
        *x = byte_at(s, i);
    }
    b
}

// The sixteen bytes of a block.
pub fn bytes_of(b: Block) -> [u8; 16]
    ensures { result ≡ block_bytes b }
{
    b.to_be_bytes()
}

// The byte at i, and 0 past the end.
pub fn byte_at(s: &[u8], i: usize) -> u8
    ensures { result ≡ get_or s.now i 0 }
{
    s.get(i).copied().unwrap_or(0)
}

fn feedback() -> &'static [u64; 16]
    ensures { Feedback result.now }
{
    &FEEDBACK
}

// At each number of four bits, the first word of what four shifts with feedback make of it; the last word is 0.
static FEEDBACK: [u64; 16] = [
    0x0000_0000_0000_0000,
    0x1c20_0000_0000_0000,
    0x3840_0000_0000_0000,
    0x2460_0000_0000_0000,
    0x7080_0000_0000_0000,
    0x6ca0_0000_0000_0000,
    0x48c0_0000_0000_0000,
    0x54e0_0000_0000_0000,
    0xe100_0000_0000_0000,
    0xfd20_0000_0000_0000,
    0xd940_0000_0000_0000,
    0xc560_0000_0000_0000,
    0x9180_0000_0000_0000,
    0x8da0_0000_0000_0000,
    0xa9c0_0000_0000_0000,
    0xb5e0_0000_0000_0000,
];
