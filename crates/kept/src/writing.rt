// An index written from the records of a table and its slots.
ghost use Rattle.std.specs.Prelude.{◌≡◌, [], ◌∷◌, ◌++◌, map, ℕ, ◌+◌, ◌*◌, ◌<◌, ◌≤◌, ◌^◌, length};
ghost use Rattle.octets.specs.Octets.{numbers_of, placed};
ghost use Rattle.index.specs.Written.{start_bytes};
ghost use Rattle.kept.specs.Columns.{version_for, columns_for, numbers_if, cells_from, codes_in};
ghost use Rattle.kept.specs.Indexed.{grid_from, place_of, slot_number, slot_width, front_in, index_in};

use crate::records::{CELLS, Records};
use crate::regions::RECORD;
use crate::slots::Slots;
use index::cells::COLUMNS;
use numbers::tables::INDEX_2;

// What an index of version 5 starts with.
const START_5: u16 = numbers::tables::INDEX_5 as u16;

// Which index: its byte order and version, its table with how many rows, and the columns that are there.
#[derive(Clone, Copy)]
pub struct IndexForm {
    pub big: bool,
    pub five: bool,
    pub table: usize,
    pub rows: usize,
    pub has: [bool; COLUMNS],
}

// Which numbers of a unit's cells a grid has: they stand so far behind the first.
#[derive(Clone, Copy)]
enum Figures {
    Offsets = 0,
    Sizes = 1,
}

impl Figures {
    fn place(self) -> usize
        ensures { result ≡ place_of self }
    {
        self as usize
    }
}

// Which numbers the slots of an index have: the identities of all, and behind them their row numbers.
#[derive(Clone, Copy)]
enum SlotNumbers {
    Identities,
    Rows,
}

impl SlotNumbers {
    // The one that a slot names by the number of a record, 0 where it is unused.
    #[tactic(auto, unfolding(crate::specs::Indexed::slot_number))]
    fn of(self, records: Records, number: usize) -> u64
        requires { number ≤ records.count }
        ensures { result ≡ slot_number self records.entry.words.now number }
    {
        match self {
            SlotNumbers::Identities => records.identity_for(number),
            SlotNumbers::Rows => records.row_for(number) as u64,
        }
    }

    // How many bytes it takes.
    #[tactic(auto, unfolding(crate::specs::Indexed::slot_width))]
    fn width(self) -> usize
        ensures { (result ≡ slot_width self) × (result ≤ 8) }
    {
        match self {
            SlotNumbers::Identities => 8,
            SlotNumbers::Rows => 4,
        }
    }
}

// ---- pieces of it
#[tactic(auto, using(crate::proofs::Pieces::three_written))]
fn put_three(big: bool, first: usize, second: usize, third: usize, out: &mut [u8], at: usize)
    requires { at + 12 ≤ length out.old }
    ensures { out.new ≡ placed out.old at (numbers_of big 4 (first ∷ second ∷ third ∷ [])) }
{
    octets::put_number(big, 4, first as u64, out, at);
    octets::put_number(big, 4, second as u64, out, at + 4);
    octets::put_number(big, 4, third as u64, out, at + 8);
}

// Stores a number where its column is there; the place behind it.
#[tactic(auto, using(octets::proofs::Tables::numbers_of_one, octets::proofs::Placed::placed_none), unfolding(crate::specs::Columns::numbers_if, octets::specs::Octets::numbers_of))]
fn put_if(there: bool, big: bool, n: usize, out: &mut [u8], at: usize) -> usize
    requires { at + 4 * length (numbers_if there n) ≤ length out.old }
    ensures out { out.new ≡ placed out.old at (numbers_of big 4 (numbers_if there n)) }
    ensures next { result ≡ at + 4 * length (numbers_if there n) }
{
    if there {
        octets::put_number(big, 4, n as u64, out, at);
        return at + 4;
    }
    at
}

// Out and a place in it stay two parameters, as octets has them for whatever is put. A writer that holds both would be no plainer: its clauses would have to say of
// the place in it what `next` says of the result now.
impl IndexForm {
    // ---- the head
    #[tactic(auto, using(crate::proofs::Pieces::start_five, crate::proofs::Pieces::start_four))]
    fn put_start(self, out: &mut [u8], at: usize)
        requires { at + 4 ≤ length out.old }
        ensures { out.new ≡ placed out.old at (start_bytes self.big (version_for self.five)) }
    {
        if self.five {
            octets::put_u16(self.big, START_5, out, at);
            octets::put_u16(self.big, 0, out, at + 2);
        } else {
            octets::put_u32(self.big, INDEX_2, out, at);
        }
    }

    #[tactic(auto, using(crate::proofs::Pieces::head_written))]
    fn put_head(self, columns: usize, slots: usize, out: &mut [u8], at: usize)
        requires { at + 16 ≤ length out.old }
        ensures { out.new ≡ placed out.old at (start_bytes self.big (version_for self.five) ++ numbers_of self.big 4 (columns ∷ self.rows ∷ slots ∷ [])) }
    {
        self.put_start(out, at);
        put_three(self.big, columns, self.rows, slots, out, at + 4);
    }

    // ---- slots
    // One number for each slot.
    #[tactic(auto, using(crate::proofs::Numbering::map_put))]
    fn put_slots(self, numbers: SlotNumbers, slots: Slots, out: &mut [u8], at: usize)
        requires { at + slot_width numbers * length slots.slots.now ≤ length out.old }
        ensures { out.new ≡ placed out.old at (numbers_of self.big (slot_width numbers) (map (slot_number numbers slots.entry.records.words.now) slots.entry.slots.now)) }
    {
        let width = numbers.width();
        let mut o = at;
        for slot in slots.slots {
            let x = numbers.of(slots.records, *slot as usize);
            octets::put_number(self.big, width, x, out, o);
            o += width;
        }
    }

    // ---- columns
    // The codes of the columns that are there; the place behind them.
    #[tactic(auto, using(crate::proofs::Columning::columns_passed, crate::proofs::Numbering::codes_put))]
    fn put_codes(self, out: &mut [u8], at: usize) -> usize
        requires { at + 4 * length (codes_in self.five self.has) ≤ length out.old }
        ensures out { out.new ≡ placed out.old at (numbers_of self.big 4 (codes_in self.five self.has)) }
        ensures next { result ≡ at + 4 * length (codes_in self.five self.has) }
    {
        let mut o = at;
        for (k, column) in crate::columns::columns(self.five).iter().enumerate() {
            o = put_if(self.has[k], self.big, column.column, out, o);
        }
        o
    }

    // ---- a number for each row and column
    // One record: the words from a place on, two apart. The place behind them.
    #[tactic(auto, using(crate::proofs::Numbering::cells_put))]
    fn put_cells(self, records: &[u32], first: usize, out: &mut [u8], at: usize) -> usize
        requires { (first + 15 ≤ length records.now) × (at + 4 * length (cells_from self.has records.now first 0 (length (columns_for self.five))) ≤ length out.old) }
        ensures out { out.new ≡ placed out.old at (numbers_of self.big 4 (cells_from self.has records.now first 0 (length (columns_for self.five)))) }
        ensures next { result ≡ at + 4 * length (cells_from self.has records.now first 0 (length (columns_for self.five))) }
    {
        let mut o = at;
        for k in 0..crate::columns::column_count(self.five) {
            let number = records[first + 2 * k] as usize;
            o = put_if(self.has[k], self.big, number, out, o);
        }
        o
    }

    // Record i, where it is one of the table. The place behind it.
    #[tactic(auto, using(crate::proofs::Pieces::grid_rows), unfolding(octets::specs::Octets::numbers_of))]
    fn put_row(self, records: Records, i: usize, which: Figures, out: &mut [u8], at: usize) -> usize
        requires { (i < records.count) × (at + 4 * length (grid_from self records.words.now (place_of which) i 1) ≤ length out.old) }
        ensures out { out.new ≡ placed out.old at (numbers_of self.big 4 (grid_from self records.entry.words.now (place_of which) i 1)) }
        ensures next { result ≡ at + 4 * length (grid_from self records.entry.words.now (place_of which) i 1) }
    {
        if records.table_at(i) != self.table {
            return at;
        }
        self.put_cells(records.words, RECORD * i + CELLS + which.place(), out, at)
    }

    // All records.
    #[tactic(auto, using(crate::proofs::Pieces::grid_put))]
    fn put_grid(self, records: Records, which: Figures, out: &mut [u8], at: usize) -> usize
        requires { at + 4 * length (grid_from self records.words.now (place_of which) 0 records.count) ≤ length out.old }
        ensures out { out.new ≡ placed out.old at (numbers_of self.big 4 (grid_from self records.entry.words.now (place_of which) 0 records.entry.count)) }
        ensures next { result ≡ at + 4 * length (grid_from self records.entry.words.now (place_of which) 0 records.entry.count) }
    {
        let mut o = at;
        for i in 0..records.count {
            o = self.put_row(records, i, which, out, o);
        }
        o
    }

    // ---- the index
    // Head and slots.
    #[tactic(auto, using(crate::proofs::Pieces::front_put), unfolding(crate::specs::Indexed::slot_width))]
    fn put_front(self, columns: usize, slots: Slots, out: &mut [u8], at: usize)
        requires { at + 16 + 12 * length slots.slots.now ≤ length out.old }
        ensures { out.new ≡ placed out.old at (front_in self columns slots.entry.records.words.now slots.entry.slots.now) }
    {
        let rows = at + 16 + 8 * slots.slots.len();
        self.put_head(columns, slots.slots.len(), out, at);
        self.put_slots(SlotNumbers::Identities, slots, out, at + 16);
        self.put_slots(SlotNumbers::Rows, slots, out, rows);
    }

    // The caller keeps room for it, and has placed the records of the table, among those that are stored.
    #[tactic(auto, using(crate::proofs::Pieces::index_put))]
    pub fn write_index(self, slots: Slots, out: &mut [u8], at: usize)
        requires { at + length (index_in self slots.records.words.now slots.records.count slots.slots.now) ≤ length out.old }
        ensures { out.new ≡ placed out.old at (index_in self slots.entry.records.words.now slots.entry.records.count slots.entry.slots.now) }
    {
        let columns = crate::columns::columns_present(self.five, self.has);
        let codes = at + 16 + 12 * slots.slots.len();
        self.put_front(columns, slots, out, at);
        let offsets = self.put_codes(out, codes);
        let sizes = self.put_grid(slots.records, Figures::Offsets, out, offsets);
        self.put_grid(slots.records, Figures::Sizes, out, sizes);
    }
}
