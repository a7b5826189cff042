// The units that are kept: one record for each in lent work, the slots of both tables, and what is written from them.
// The regions of lent work, those of crates above too, lie where `regions` says.
#![tactic(auto)]

pub mod by_number;
pub mod cells;
pub mod columns;
pub mod records;
pub mod regions;
pub mod slots;
pub mod state;
pub mod unit_bytes;
pub mod writing;

use index::cells::COLUMNS;

// A table: how many rows it has, and which columns some row has.
#[derive(Clone, Copy)]
pub struct Table {
    pub rows: usize,
    pub has: [bool; COLUMNS],
}

// The kept units: how many there are, both tables, and how many bytes of info and of types they have.
#[derive(Clone, Copy)]
pub struct Units {
    pub count: usize,
    pub cu: Table,
    pub tu: Table,
    pub info: usize,
    pub types: usize,
}
