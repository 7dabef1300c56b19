// The transfer of a long read: whether the rows as they stand could have left it, what makes it, what ends it, and the transfer
// with zeros wherever it holds nothing.
ghost use Rattle.std.specs.Prelude.{◌≡◌, cond, ◌<◌};
ghost use Rattle.model.specs.State.{Store, idle, profile, running as running_at};
ghost use Rattle.model.specs.Soundness.{more_comes, rows_allow};
ghost use Rattle.store.specs.Lists.{entries_of};
ghost use Rattle.picks.specs.Sizes.{Even};
ghost use Rattle.picks.specs.Canonical.{broken_transfer, cleared_picking, cleared_transfer, dated_picking, ended_transfer, no_transfer, numbered_picking, running_transfer, whole_picking};
ghost use Rattle.picks.specs.Transfers.{picking_of, transfer_of};

use crate::{Picking, PickingKind, Progress, Transfer, rows, sizes};
use model::{BLOCK_ROOM, Clock, DATA_ROOM};
use store::Rows;

// Whether the rows, each with a cell for each column, could have left the transfer.
pub fn rows_allow(rows: Rows, columns: usize, transfer: Transfer) -> bool
    requires { Even rows columns }
    ensures { (s : Store) → s.rows ≡ entries_of rows → result ≡ rows_allow s (transfer_of transfer) }
{
    match transfer.progress {
        Progress::Running => runs_on(rows, columns, transfer.picking, transfer.block),
        Progress::Idle | Progress::Ended => true,
    }
}

// Whether they could have left one of this picking that runs.
fn runs_on(rows: Rows, columns: usize, picking: Picking, block: u32) -> bool
    requires { Even rows columns }
    ensures { (s : Store) → s.rows ≡ entries_of rows → result ≡ rows_allow s (running_at (profile (picking_of picking)) block) }
{
    let Ok(which) = rows::pick_rows(rows, picking) else {
        return false;
    };
    more_comes(sizes::rows_size(rows, columns, which), block as usize)
}

// Whether data of this size are too long for one frame, and more of them come after the block.
fn more_comes(size: usize, block: usize) -> bool
    requires { block < 4294967296 }
    ensures { result ≡ more_comes size block }
{
    DATA_ROOM < size && 1 <= block && BLOCK_ROOM * block < size
}

// The transfer once the rows are others: one that runs is ended.
pub fn broken(transfer: Transfer) -> Transfer
    ensures { result ≡ broken_transfer transfer }
{
    match transfer.progress {
        Progress::Running => ended_transfer(),
        Progress::Idle | Progress::Ended => transfer,
    }
}

// No transfer.
pub fn no_transfer() -> Transfer
    ensures { result ≡ no_transfer }
{
    Transfer {
        progress: Progress::Idle,
        picking: whole(),
        block: 0,
    }
}

// A transfer that was ended meanwhile.
pub fn ended_transfer() -> Transfer
    ensures { result ≡ ended_transfer }
{
    Transfer {
        progress: Progress::Ended,
        ..no_transfer()
    }
}

// A transfer of these rows, of which this block went out last.
pub fn running(picking: Picking, block: u32) -> Transfer
    ensures { result ≡ running_transfer picking block }
{
    Transfer {
        progress: Progress::Running,
        picking,
        block,
    }
}

// The transfer once this block of the rows has gone out, which is the last or not.
pub fn after_block(picking: Picking, block: u32, last: bool) -> Transfer
    ensures { transfer_of result ≡ cond last idle (running_at (profile (picking_of picking)) block) }
{
    if last {
        no_transfer()
    } else {
        running(picking, block)
    }
}

// All rows.
pub fn whole() -> Picking
    ensures { result ≡ whole_picking }
{
    let none = Clock { bytes: [0; 12] };
    Picking {
        kind: PickingKind::Whole,
        after: none,
        until: none,
        from: 0,
        to: 0,
    }
}

// The rows of a stretch of time.
pub fn dated(after: Clock, until: Clock) -> Picking
    ensures { result ≡ dated_picking after until }
{
    Picking {
        kind: PickingKind::Dated,
        after,
        until,
        ..whole()
    }
}

// The rows from one place to another.
pub fn numbered(from: u32, to: u32) -> Picking
    ensures { result ≡ numbered_picking from to }
{
    Picking {
        kind: PickingKind::Numbered,
        from,
        to,
        ..whole()
    }
}

// The transfer with zeros wherever it holds nothing.
pub fn clear_transfer(transfer: Transfer) -> Transfer
    ensures { result ≡ cleared_transfer transfer }
{
    match transfer.progress {
        Progress::Idle => no_transfer(),
        Progress::Running => running(clear_picking(transfer.picking), transfer.block),
        Progress::Ended => ended_transfer(),
    }
}

fn clear_picking(picking: Picking) -> Picking
    ensures { result ≡ cleared_picking picking }
{
    match picking.kind {
        PickingKind::Whole => whole(),
        PickingKind::Dated => dated(picking.after, picking.until),
        PickingKind::Numbered => numbered(picking.from, picking.to),
    }
}
