// The transfer of a long read beside the line: whether H's association could have begun it.
ghost use Rattle.std.specs.Prelude.{◌≡◌, ◌&&◌};
ghost use Rattle.model.specs.Soundness.{allowed, could_pick, takes_blocks};
ghost use Rattle.line.specs.View.{line_of};
ghost use Rattle.picks.specs.Transfers.{picking_of, transfer_of};

use line::LineState;
use picks::{Picking, PickingKind, Progress, Transfer};

// Whether the line allows the transfer: H's association could have begun it.
pub fn is_allowed(line: LineState, transfer: Transfer) -> bool
    ensures { result ≡ allowed (line_of line) (transfer_of transfer) }
{
    let progress = transfer.progress;
    match progress {
        Progress::Idle => true,
        Progress::Running => {
            let picking = transfer.picking;
            can_ask(line, picking)
        }
        Progress::Ended => line::takes_blocks(line),
    }
}

// Whether H can ask for these rows in blocks: by a selector, where selective access was agreed besides.
fn can_ask(line: LineState, picking: Picking) -> bool
    ensures { result ≡ (takes_blocks (line_of line) && could_pick (picking_of picking) (line_of line)) }
{
    if !line::takes_blocks(line) {
        return false;
    }
    let kind = picking.kind;
    match kind {
        PickingKind::Whole => true,
        PickingKind::Dated => line::has_agreed(line, [0x00, 0x00, 0x04]),
        PickingKind::Numbered => line::has_agreed(line, [0x00, 0x00, 0x04]),
    }
}
