// The rows of an index: whether each has exactly one slot, and their lines.
ghost use Rattle.std.specs.Prelude.{◌≡◌, true, unwrap_or, ℕ, ◌+◌, ◌*◌, ◌-◌, ◌<◌, ◌≤◌, length};
ghost use Rattle.octets.specs.Octets.{placed, zeros};
ghost use Rattle.index.specs.Columns.{columns_of};
ghost use Rattle.sheet.specs.Sheet.{line_bytes, section_in, row_lines};
ghost use Rattle.sheet.specs.Held.{
  IndexHere,
  Marked,
  Sections,
  CellLine,
  none_twice,
  all_marked,
  single,
  laid_out,
  most_slots,
};

use crate::lines::{LINE, Line};
use crate::marks::Marks;
use index::cells::COLUMNS;
use index::reading::Index;

// An index section has at most 524,288 slots: it is shorter than 8,388,608 bytes, a slot takes 12, and their number is a power of two.
const MARK_WORDS: usize = 16_384;

// The index of a table: the letter of its lines, and our codes of the sections of its columns, which are worked out once and not for each line.
// The index is borrowed; `IndexTable` holds it.
#[derive(Clone, Copy)]
pub struct IndexTableRef<'i, 'a> {
    pub letter: u8,
    pub index: &'i Index<'a>,
    pub sections: [usize; COLUMNS],
    pub ghost here: { IndexHere index.now },
    pub ghost coded: { Sections index.now sections (length index.now.codes) },
}

// A line's number for a column of no section, as the definition `section_in` has it. An index that was read has no such column.
const NO_SECTION: usize = 0;

// ---- columns
// Our code of the section whose column has a code.
fn section_of(version: u32, code: usize) -> Option<usize>
    ensures { unwrap_or result 0 ≡ section_in (columns_of version) code }
{
    let place = index::cells::columns(version)
        .iter()
        .find(|c| c.column == code);
    place.map(|c| c.section)
}

// Our codes of an index's columns.
fn sections_of(index: &Index) -> [usize; COLUMNS]
    requires { IndexHere index.now }
    ensures { Sections index.now result (length index.now.codes) }
{
    let head = index.head();
    let mut sections = [0; COLUMNS];
    for k in 0..head.columns {
        sections[k] = section_of(head.version, index.code_at(k)).unwrap_or(NO_SECTION);
    }
    sections
}

// Whether the rows 1 to n are marked.
fn all_marked(marks: &Marks, n: usize) -> bool
    requires { (n < most_slots) × (n < 32 * length marks.now.words.now) }
    ensures { result ≡ all_marked marks.now.words.now 1 n }
{
    (1..n + 1).all(|row| marks.has(row))
}

impl<'i, 'a> IndexTableRef<'i, 'a> {
    // The table of an index with as many slots as marks at most, and rows within its units.
    pub fn of(letter: u8, index: &'i Index<'a>) -> IndexTableRef<'i, 'a>
        requires { IndexHere index.now }
        ensures { (result.index.now ≡ index.now) × (result.letter ≡ letter) }
    {
        let sections = sections_of(index);
        IndexTableRef {
            letter,
            index,
            sections,
        }
    }

    // ---- one slot for each row
    // Whether no row stands in two slots; then each row in a slot is marked. From the last slot to the first.
    fn mark_rows(&self, marks: &mut Marks) -> bool
        requires { (length self.now.index.now.rows ≤ 32 * length marks.old.words.now) × (marks.old.words.now ≡ zeros (length marks.old.words.now)) }
        ensures once { result ≡ none_twice self.now.index.now.rows }
        ensures marks { result ≡ true → Marked marks.new.words.now self.now.index.now.rows }
        ensures kept { length marks.new.words.now ≡ length marks.old.words.now }
    {
        for k in (0..self.index.head().slots).rev() {
            let row = self.index.row_at(k);
            if row != 0 {
                if marks.has(row) {
                    return false;
                }
                marks.set(row);
            }
        }
        true
    }

    #[tactic(auto, using(crate::proofs::LawIndex::is_single, crate::proofs::LawIndex::not_single), unfolding(octets::specs::Octets::zeros))]
    pub fn is_single(&self) -> bool
        ensures { result ≡ single self.now.index.now.rows self.now.index.now.identities 1 self.now.index.now.units }
    {
        let mut words = [0; MARK_WORDS];
        let mut marks = Marks { words: &mut words };
        self.mark_rows(&mut marks) && all_marked(&marks, self.index.head().units)
    }

    // ---- lines
    // The bytes that they take.
    pub fn size(&self) -> usize
        ensures { result ≡ line_bytes * length self.now.index.now.codes * self.now.index.now.units }
    {
        let head = self.index.head();
        LINE * head.columns * head.units
    }

    // The line of a row, counted from 1, in column k. By its number: a `Row` of this index would hold the index again, and that it is this one would have to be said.
    fn line_of(&self, row: usize, identity: u64, k: usize) -> Line
        requires { (0 < row) × (row ≤ self.now.index.now.units) × (k < length self.now.index.now.codes) }
        ensures { CellLine self.now.letter self.now.index.now identity k ((row - 1) * length self.now.index.now.codes + k) result }
    {
        let cell = self.index.cell_at(row, k);
        Line {
            letter: self.letter,
            identity,
            section: self.sections[k],
            offset: cell.offset,
            size: cell.size,
        }
    }

    // Stores the lines of a row.
    #[tactic(auto, using(crate::proofs::LawBlocks::cell_turns))]
    fn put_row(&self, row: usize, identity: u64, d: &mut [u8], at: usize)
        requires { (0 < row) × (row ≤ self.now.index.now.units) × (at + line_bytes * length self.now.index.now.codes ≤ length d.old) }
        ensures { d.new ≡ placed d.old at (row_lines self.now.letter self.now.index.now row identity) }
    {
        for k in 0..self.index.head().columns {
            self.line_of(row, identity, k).put(d, at + LINE * k);
        }
    }

    // Stores the lines of all rows, each where its slot is met, over zeros. From the last slot to the first.
    pub fn put_rows(&self, d: &mut [u8])
        requires { (line_bytes * length self.now.index.now.codes * self.now.index.now.units ≤ length d.old) × (d.old ≡ zeros (length d.old)) }
        ensures { d.new ≡ laid_out self.now.letter self.now.index.now (length d.old) }
    {
        let head = self.index.head();
        let block = LINE * head.columns;
        for k in (0..head.slots).rev() {
            let row = self.index.row_at(k);
            if row != 0 {
                self.put_row(row, self.index.identity_at(k), d, block * (row - 1));
            }
        }
    }
}

// ---- a table that holds its index
// The same, for a caller who has no place to keep the index beside it. Its answers are those of the borrowed one.
#[derive(Drop)]
pub struct IndexTable<'a> {
    pub letter: u8,
    pub index: Index<'a>,
    pub sections: [usize; COLUMNS],
    pub ghost here: { IndexHere index },
    pub ghost coded: { Sections index sections (length index.codes) },
}

impl<'a> IndexTable<'a> {
    // The table of an index with as many slots as marks at most, and rows within its units.
    pub fn of(letter: u8, index: Index<'a>) -> IndexTable<'a>
        requires { IndexHere index }
        ensures { (result.index ≡ index.entry) × (result.letter ≡ letter) }
    {
        let borrowed = IndexTableRef::of(letter, &index);
        IndexTable {
            letter: borrowed.letter,
            sections: borrowed.sections,
            index,
        }
    }

    fn borrowed(&self) -> IndexTableRef<'_, 'a>
        ensures { (result.index.now ≡ self.now.index) × (result.letter ≡ self.now.letter) }
    {
        IndexTableRef {
            letter: self.letter,
            index: &self.index,
            sections: self.sections,
        }
    }

    pub fn is_single(&self) -> bool
        ensures { result ≡ single self.now.index.rows self.now.index.identities 1 self.now.index.units }
    {
        self.borrowed().is_single()
    }

    // The bytes that the lines take.
    pub fn size(&self) -> usize
        ensures { result ≡ line_bytes * length self.now.index.codes * self.now.index.units }
    {
        self.borrowed().size()
    }

    // Stores the lines of all rows, each where its slot is met, over zeros. From the last slot to the first.
    pub fn put_rows(&self, d: &mut [u8])
        requires { (line_bytes * length self.now.index.codes * self.now.index.units ≤ length d.old) × (d.old ≡ zeros (length d.old)) }
        ensures { d.new ≡ laid_out self.now.letter self.now.index (length d.old) }
    {
        self.borrowed().put_rows(d);
    }
}

#[cfg(test)]
mod tests {
    use super::*;

    // The index of the package of docs/FORMAT.md, 14: version 5, two columns, one unit, two slots. Identity 1 stands in the second slot, with row 1. The columns
    // are info and abbrev, and row 1 has 20 bytes of the one and one byte of the other.
    const ONE_UNIT: [u8; 64] = [
        5, 0, 0, 0, 2, 0, 0, 0, 1, 0, 0, 0, 2, 0, 0, 0, // its head
        0, 0, 0, 0, 0, 0, 0, 0, 1, 0, 0, 0, 0, 0, 0, 0, // identities
        0, 0, 0, 0, 1, 0, 0, 0, // rows
        1, 0, 0, 0, 3, 0, 0, 0, // columns
        0, 0, 0, 0, 0, 0, 0, 0, // offsets
        20, 0, 0, 0, 1, 0, 0, 0, // sizes
    ];

    // A table that leaves the function in which its index was read.
    fn table_in(bytes: &[u8; 64]) -> Option<IndexTable<'_>> {
        match Index::read(false, bytes) {
            Ok(index) => Some(IndexTable::of(b'C', index)),
            Err(_) => None,
        }
    }

    #[test]
    #[tactic(auto, unfolding(octets::specs::Octets::zeros))]
    fn a_table_that_holds_its_index_is_laid_out(rt: HostRuntime) {
        let Some(table) = table_in(&ONE_UNIT) else {
            assert!(rt; false, "the index is not read");
            return;
        };
        assert_eq!(rt; table.letter, b'C');
        assert!(rt; table.is_single());
        assert_eq!(rt; table.size(), 80);
        let mut page = [0; 80];
        table.put_rows(&mut page);
        assert_eq!(rt;
            page,
            *b"C 0000000000000001 01 00000000 00000014\nC 0000000000000001 03 00000000 00000001\n"
        );
    }

    #[test]
    fn a_row_in_two_slots_is_found_by_a_table_that_holds_its_index(rt: HostRuntime) {
        let mut twice = ONE_UNIT;
        twice[16] = 2; // identity 2
        twice[32] = 1; // of row 1 too
        let Some(table) = table_in(&twice) else {
            assert!(rt; false, "the index is not read");
            return;
        };
        assert!(rt; !table.is_single());
    }
}
