// A block of a long answer, written: its head with its number, and its stretch of the data, which are worked out anew from the rows. A
// refusal of a request for a block has the same head.
#![tactic(auto)]

ghost use Rattle.std.specs.Prelude.{cond, ◌∷◌, ◌+◌, ◌*◌, ◌-◌, ◌≤◌, length};
ghost use Rattle.wire.specs.Numbers.{high_first};
ghost use Rattle.wire.specs.Wrote.{Wrote};
ghost use Rattle.model.specs.Limits.{block_room, longest_sent, text_room};
ghost use Rattle.model.specs.Objects.{block_refused};
ghost use Rattle.blocks.specs.Block.{WroteBlock};

use model::BLOCK_ROOM;

// The place after a block, and whether it is the last: each block has both.
#[derive(Clone, Copy)]
pub struct Block {
    pub next: usize,
    pub last: bool,
}

// Block k of the data, counted from 1, which begins no later than they end. That k is small keeps the place of its first byte a number.
pub fn put_block(out: &mut [u8], at: usize, invoke: u8, k: u32, text: &[u8]) -> Block
    requires { (1 ≤ k) × (k ≤ 100) × (block_room longest_sent * (k - 1) ≤ length text.now) × (at + text_room longest_sent ≤ length out.old) }
    ensures { WroteBlock invoke k text.now out.old at out.new result }
{
    let start = BLOCK_ROOM * (k as usize - 1);
    let rest = text.len() - start;
    let last = rest <= BLOCK_ROOM;
    let size = rest.min(BLOCK_ROOM);
    let a = put_head(out, at, invoke, last, k);
    let b = wire_write::put(out, a, 0x00);
    let c = wire_write::put_length(out, b, size);
    let next = wire_write::put_all(out, c, &text[start..start + size]);
    Block { next, last }
}

// A request for a block is refused: a last block with its own number and a code, whatever that is: its promise is of every number.
pub fn put_refusal(out: &mut [u8], at: usize, invoke: u8, number: u32, code: u8) -> usize
    requires { at + 10 ≤ length out.old }
    ensures { Wrote out.old at out.new result (block_refused invoke number code) }
{
    let a = put_head(out, at, invoke, true, number);
    let b = wire_write::put(out, a, 0x01);
    wire_write::put(out, b, code)
}

// What a block begins with: its invoke byte, whether it is the last, its number.
fn put_head(out: &mut [u8], at: usize, invoke: u8, last: bool, number: u32) -> usize
    requires { at + 8 ≤ length out.old }
    ensures { Wrote out.old at out.new result (0xC4 ∷ 0x02 ∷ invoke ∷ cond last 0x01 0x00 ∷ high_first 4 number) }
{
    let a = wire_write::put_all(out, at, b"\xC4\x02");
    let b = wire_write::put(out, a, invoke);
    let c = wire_write::put(out, b, last as u8);
    wire_write::put_number::<4>(out, c, number)
}
