// Which rows a read of the profile picks, how long their data are, and the transfer of a long read. specs/ says which value of
// the model each type stands for.
#![tactic(auto)]

use model::Clock;

mod rows;
mod sizes;
mod transfers;

pub use rows::{all_rows, count_marks, pick_entries, pick_range, rows_of};
pub use sizes::rows_size;
pub use transfers::{
    after_block, broken, clear_transfer, dated, no_transfer, numbered, rows_allow, running, whole,
};

// By what a picking goes: none of the selectors, or one of them.
#[derive(Clone, Copy, PartialEq, Eq)]
pub enum PickingKind {
    Whole,
    Dated,
    Numbered,
}

// Flags and values beside each other: an image has each of these fields, and is written back byte for byte (WrittenBack of image).

// The rows that are asked for: all of them; those later than one clock and not later than another; those from one place to
// another. What its kind does not use is no part of it.
#[derive(Clone, Copy)]
pub struct Picking {
    pub kind: PickingKind,
    pub after: Clock,
    pub until: Clock,
    pub from: u32,
    pub to: u32,
}

// How far a transfer has come.
#[derive(Clone, Copy, PartialEq, Eq)]
pub enum Progress {
    Idle,
    Running,
    Ended,
}

// The transfer of H: while one runs, the rows that were asked for and the number of the block that went out last.
#[derive(Clone, Copy)]
pub struct Transfer {
    pub progress: Progress,
    pub picking: Picking,
    pub block: u32,
}
