// The objects of the meter: what a name means to a client, and the rows that a selection picks. specs/ says which value of
// the model each type stands for.
#![tactic(auto)]

use model::{Client, Name, Register};

mod select;
mod table;

pub use select::{pick_rows, picking_of};
pub use table::find;

// What neither the rows nor a register has a part in.
#[derive(Clone, Copy)]
pub enum Plain {
    Clock,
    Time,
    Date,
    Device,
}

// What an object shows as attribute 2. A register's name is the one that was asked for.
#[derive(Clone, Copy)]
pub enum Shown {
    Of(Plain),
    Rows,
    RecordNumber,
    Register(Register),
}

// An object as it is served: its class, its attributes and methods, counted from 1, and what it shows.
#[derive(Clone, Copy)]
pub struct Served {
    pub class: u16,
    pub attributes: u8,
    pub methods: u8,
    pub shown: Shown,
}

// A request but for its service.
#[derive(Clone, Copy)]
pub struct Query {
    pub client: Client,
    pub invoke: u8,
    pub selective: bool,
    pub blocks: bool,
    pub class: u16,
    pub name: Name,
}

// A selector of a GET, by its number; its value begins at `at` and ends with the APDU.
#[derive(Clone, Copy)]
pub struct Selector {
    pub number: u8,
    pub at: usize,
}
