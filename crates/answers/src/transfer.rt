// The transfer of H: what a read leaves of it, and the answer to a request for the next block.
ghost use Rattle.std.specs.Prelude.{◌≡◌, true, ◌+◌, ◌*◌, ◌-◌, ◌≤◌, length};
ghost use Rattle.model.specs.Limits.{block_room, longest_sent, text_room};
ghost use Rattle.model.specs.State.{profile, running};
ghost use Rattle.model.specs.Objects.{Result, after_read, continued, go_on, refused_turn, rows_data, transfer_after, turned};
ghost use Rattle.store.specs.Lists.{entries_of};
ghost use Rattle.picks.specs.Marks.{marked};
ghost use Rattle.picks.specs.Transfers.{picking_of, transfer_of};
ghost use Rattle.data.specs.Rows.{EvenRows};
ghost use Rattle.blocks.specs.Block.{WroteBlock};
ghost use Rattle.body.specs.declared.BodyState.{BodyState as AnyBody};
ghost use Rattle.body.specs.Change.{Makes};
ghost use Rattle.body.specs.View.{body_of, body_sound};
ghost use Rattle.answers.specs.Promise.{Turns, block_code};

use crate::Turned;
use blocks::Block;
use body::{BodyState, Change};
use model::{CipherClient, Client};
use picks::{Picking, Progress, Transfer};
use store::Rows;

// The most that the data of rows take: fifteen rows of sixteen columns. They are written into an array, as there is no heap.
const LONGEST_DATA: usize = 1487;

// Why a request for a block is refused. The numbers are the result codes that go out.
#[derive(Clone, Copy)]
enum BlockRefusal {
    // meanwhile, by other rows
    Ended = 15,
    NoneRunning = 16,
    WrongNumber = 19,
}

impl From<BlockRefusal> for u8 {
    ghost from_gives = { λ refusal code. code ≡ block_code refusal };

    fn from(refusal: BlockRefusal) -> u8 {
        refusal as u8
    }
}

// What a read of the client makes of the body: it leaves this transfer where it is H's.
pub fn after_read(client: Client, transfer: Transfer) -> Change
    ensures { (x : Result) → transfer_after x ≡ transfer_of transfer → Makes (after_read client x) result }
{
    match client {
        Client::Verification => body::unchanged(),
        Client::Ciphering(CipherClient::Han) => body::leaves(transfer),
    }
}

// Block k of the rows that were picked, which begins no later than their data end; k is small, as `put_block` asks.
pub fn put_rows_block(
    out: &mut [u8],
    at: usize,
    invoke: u8,
    k: u32,
    rows: Rows,
    which: u16,
) -> Block
    requires { EvenRows rows × (1 ≤ k) × (k ≤ 100) × (block_room longest_sent * (k - 1) ≤ length (rows_data (marked which (entries_of rows)))) × (at + text_room longest_sent ≤ length out.old) }
    ensures { WroteBlock invoke k (rows_data (marked which (entries_of rows))) out.old at out.new result }
{
    let mut text = [0; LONGEST_DATA];
    let size = data::put_rows(&mut text, 0, rows, which);
    blocks::put_block(out, at, invoke, k, &text[..size])
}

// The answer to a request for the block after the one of this number.
pub fn answer_next(body: BodyState, invoke: u8, number: u32, out: &mut [u8], at: usize) -> Turned
    requires { (body_sound (body_of body) ≡ true) × (at + text_room longest_sent ≤ length out.old) }
    ensures { Turns (turned (go_on invoke number) (body_of body)) body out.old at out.new result }
{
    let transfer = body.transfer;
    match transfer.progress {
        Progress::Ended => refuse(invoke, number, BlockRefusal::Ended, out, at),
        Progress::Idle => refuse(invoke, number, BlockRefusal::NoneRunning, out, at),
        Progress::Running => {
            go_on(
                body,
                transfer.picking,
                transfer.block,
                invoke,
                number,
                out,
                at,
            )
        }
    }
}

// A request for a block is refused, and the transfer forgotten.
fn refuse(invoke: u8, number: u32, refusal: BlockRefusal, out: &mut [u8], at: usize) -> Turned
    requires { at + text_room longest_sent ≤ length out.old }
    ensures { (b : AnyBody) → Turns (refused_turn invoke number (block_code refusal) (body_of b)) b out.old at out.new result }
{
    let next = blocks::put_refusal(out, at, invoke, number, u8::from(refusal));
    Turned {
        refusal: 13,
        next,
        change: body::leaves(picks::no_transfer()),
    }
}

// The transfer of these rows runs, and block k went out last.
fn go_on(
    body: BodyState,
    picking: Picking,
    k: u32,
    invoke: u8,
    number: u32,
    out: &mut [u8],
    at: usize,
) -> Turned
    requires { (body_sound (body_of body) ≡ true) × ((body_of body).transfer ≡ running (profile (picking_of picking)) k) × (at + text_room longest_sent ≤ length out.old) }
    ensures { Turns (continued invoke number (body_of body) (running (profile (picking_of picking)) k)) body out.old at out.new result }
{
    if number != k {
        return refuse(invoke, number, BlockRefusal::WrongNumber, out, at);
    }
    let which = picks::rows_of(body.rows, picking);
    let next = k + 1;
    let b = put_rows_block(out, at, invoke, next, body.rows, which);
    Turned {
        refusal: 0,
        next: b.next,
        change: body::leaves(picks::after_block(picking, next, b.last)),
    }
}
