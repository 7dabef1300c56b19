// What a request makes of the body. The body is read where the request is answered, and changed here, once.
ghost use Rattle.std.specs.Prelude.{◌≡◌};
ghost use Rattle.body.specs.Change.{holding, leaving, left_after, number_after, rows_after, unchanging};

use crate::{BodyState, Change, no_rows};
use picks::Transfer;

// The body stays.
pub fn unchanged() -> Change
    ensures { result ≡ unchanging }
{
    Change::Nothing
}

// This transfer is left.
pub fn leaves(transfer: Transfer) -> Change
    ensures { result ≡ leaving transfer }
{
    Change::Transfer(transfer)
}

// The transfer after a change, where the body has this one. Rows that are reset are others, so that a transfer which runs is ended.
pub fn left_by(change: Change, held: Transfer) -> Transfer
    ensures { result ≡ left_after change held }
{
    match change {
        Change::Nothing | Change::RecordNumber => held,
        Change::Transfer(left) => left,
        Change::Rows => picks::broken(held),
    }
}

// The body after a change, with this transfer.
pub fn changed(body: BodyState, change: Change, transfer: Transfer) -> BodyState
    ensures { result ≡ holding (number_after change body.number) (rows_after change body.rows) transfer body }
{
    let mut next = body;
    next.transfer = transfer;
    match change {
        Change::Nothing | Change::Transfer(_) => {}
        Change::Rows => {
            next.rows = no_rows();
        }
        Change::RecordNumber => {
            next.number = 0;
        }
    }
    next
}
