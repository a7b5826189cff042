// One record for each kept unit: table, row number in it, identity (low and high word), home section, start and size in the bundle, then
// offset and size for each column.
ghost use Rattle.std.specs.Prelude.{◌≡◌, [], ◌∷◌, ℕ, ◌+◌, ◌*◌, ◌<◌, ◌≤◌, ◌^◌, length, get_or};
ghost use Rattle.octets.specs.Octets.{placed};
ghost use Rattle.numbers.specs.Limits.{work_for_word};
ghost use Rattle.kept.specs.Regions.{record_words, records_region, region};
ghost use Rattle.kept.specs.Columns.{CellsFit};
ghost use Rattle.kept.specs.Records.{
  cell_words,
  cells_of,
  unit_of,
  words_of,
  record_at,
  identity_for,
  row_for,
  UnitFits,
};

use crate::regions::{RECORD, RECORDS};
use index::cells::{COLUMNS, Contribution};
use index::judging::Contributions;

// The places of a record's words.
pub const TABLE: usize = 0;

pub const ROW: usize = 1;

pub const LOW: usize = 2;

pub const HIGH: usize = 3;

pub const HOME: usize = 4;

pub const START: usize = 5;

pub const SIZE: usize = 6;

pub const CELLS: usize = 7;

// A kept unit without its cells.
#[derive(Clone, Copy)]
pub struct Unit {
    // 1 or 2. A number, as a record's words hold it: an enum would be turned back at each store and each comparison.
    pub table: usize,
    pub row: usize,
    pub identity: u64,
    // A section's code. A number, as a record's words hold it and as cells are indexed by it.
    pub home: usize,
    pub start: usize,
    pub size: usize,
}

// A kept unit with its cells, which are those of its version's columns. All its numbers fit words.
#[derive(Clone, Copy)]
pub struct KeptUnit {
    pub unit: Unit,
    pub five: bool,
    pub cells: Contributions,
    ghost unit_fits: { UnitFits unit },
    ghost cells_fit: { CellsFit cells },
}

// What an index has where a unit has nothing of a section.
const NOTHING: Contribution = Contribution { offset: 0, size: 0 };

// ---- stored. Callers keep room.
// Offset and size for each column.
#[tactic(auto, using(crate::proofs::Columning::column_offset, crate::proofs::Columning::column_size, crate::proofs::Copying::cells_stored))]
fn store_cells(five: bool, words: &mut [u32], at: usize, cells: Contributions)
    requires { (at + cell_words ≤ length words.old) × CellsFit cells }
    ensures { words.new ≡ placed words.old at (cells_of five cells) }
{
    for k in 0..COLUMNS {
        let part = crate::columns::cell_at(five, k, &cells).unwrap_or(NOTHING);
        octets::set_word(words, at + 2 * k, part.offset);
        octets::set_word(words, at + 2 * k + 1, part.size);
    }
}

// The record of a unit, at a place.
pub fn store_unit(words: &mut [u32], at: usize, kept: KeptUnit)
    requires { at + record_words ≤ length words.old }
    ensures { words.new ≡ placed words.old at (words_of (unit_of kept.unit kept.five kept.cells)) }
{
    let unit = kept.unit;
    let [low, high] = octets::words_of(unit.identity);
    let head = [
        unit.table as u32,
        unit.row as u32,
        low,
        high,
        unit.home as u32,
        unit.start as u32,
        unit.size as u32,
    ];
    words[at..at + CELLS].copy_from_slice(&head);
    store_cells(kept.five, words, at + CELLS, kept.cells);
}

// ---- read
// The records of so many units, in words one behind the other. Callers have stored them.
#[derive(Clone, Copy)]
pub struct Records<'a> {
    pub words: &'a [u32],
    pub count: usize,
    ghost room: { record_words * count ≤ length words.now },
}

impl<'a> Records<'a> {
    // Those that work has for a bundle of so many words.
    #[tactic(auto, using(crate::proofs::RegionStores::length_records))]
    pub fn of_work(work: &'a [u32], words: usize, count: usize) -> Records<'a>
        requires { (words < 2 ^ 32) × (work_for_word * words ≤ length work.now) × (record_words * count ≤ records_region.words * words) }
        ensures are { result.words.now ≡ region work.now words records_region }
        ensures many { result.count ≡ count }
    {
        Records {
            words: RECORDS.part(work, words),
            count,
        }
    }

    #[tactic(auto, unfolding(crate::specs::Records::record_at))]
    pub fn table_at(self, i: usize) -> usize
        requires { i < self.count }
        ensures { result ≡ (record_at self.entry.words.now i).table }
    {
        self.words[RECORD * i + TABLE] as usize
    }

    #[tactic(auto, unfolding(crate::specs::Records::record_at))]
    pub fn identity_at(self, i: usize) -> u64
        requires { i < self.count }
        ensures { result ≡ (record_at self.entry.words.now i).identity }
    {
        octets::number_of(self.words[RECORD * i + LOW], self.words[RECORD * i + HIGH])
    }

    // The identity that a slot names by the number of a record, from 1, and 0 for a slot that names none. An unused slot is 0 and no Option: slots stand in lent
    // words, which are numbers, since there is no heap for anything else; an index has 0 there too.
    #[tactic(auto, using(crate::proofs::Recording::identity_none, crate::proofs::Recording::identity_some))]
    pub fn identity_for(self, number: usize) -> u64
        requires { number ≤ self.count }
        ensures { result ≡ identity_for self.entry.words.now number }
    {
        match number.checked_sub(1) {
            Some(i) => self.identity_at(i),
            None => 0,
        }
    }

    // The row number that a slot names by the number of a record, from 1, and 0 for a slot that names none.
    #[tactic(auto, using(crate::proofs::Recording::row_none, crate::proofs::Recording::row_some), unfolding(crate::specs::Records::record_at))]
    pub fn row_for(self, number: usize) -> usize
        requires { number ≤ self.count }
        ensures { result ≡ row_for self.entry.words.now number }
    {
        match number.checked_sub(1) {
            Some(i) => self.words[RECORD * i + ROW] as usize,
            None => 0,
        }
    }
}
