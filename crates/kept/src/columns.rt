// The columns of a version in order: a section's code, and the code of its column.
ghost use Rattle.std.specs.Prelude.{◌≡◌, map, ◌<◌, ◌≤◌, ◌^◌, length};
ghost use Rattle.index.specs.Cells.{column_place};
ghost use Rattle.kept.specs.Columns.{version_for, columns_for, section_of, column_cell, Marked, codes_in};
ghost use Rattle.kept.specs.Indexed.{index_size};

use index::cells::{COLUMNS, ColumnPlace, Contribution};
use index::judging::Contributions;
use numbers::tables::{DWARF_4, DWARF_5};

// The DWARF version that a flag names.
#[tactic(auto, unfolding(crate::specs::Columns::version_for))]
fn version_for(five: bool) -> u32
    ensures { result ≡ version_for five }
{
    if five { DWARF_5 } else { DWARF_4 }
}

#[tactic(auto, unfolding(crate::specs::Columns::columns_for))]
pub fn columns(five: bool) -> &'static [ColumnPlace]
    ensures { result.now ≡ map column_place (columns_for five) }
{
    index::cells::columns(version_for(five))
}

#[tactic(auto, using(crate::proofs::Columning::columns_are), unfolding(crate::specs::Columns::columns_for))]
pub fn column_count(five: bool) -> usize
    ensures is { result ≡ length (columns_for five) }
    ensures most { result ≤ 8 }
{
    index::cells::columns_count(version_for(five))
}

// The section of column k, where there is one.
#[tactic(auto, using(crate::proofs::Columning::section_none, crate::proofs::Columning::section_some), unfolding(crate::specs::Columns::columns_for))]
pub fn section_at(five: bool, k: usize) -> Option<usize>
    ensures { result ≡ section_of five k }
{
    Some(index::cells::column_at(version_for(five), k)?.section)
}

// What a unit has of column k.
#[tactic(auto, using(crate::proofs::Columning::column_cells))]
pub fn cell_at(five: bool, k: usize, cells: &Contributions) -> Option<Contribution>
    ensures { result ≡ column_cell five cells.now k }
{
    cells.cells[section_at(five, k)?]
}

// ---- the columns that are there
// The columns that were there, and those of one row more.
pub fn mark_columns(five: bool, mut has: [bool; COLUMNS], cells: Contributions) -> [bool; COLUMNS]
    ensures { Marked five has result cells (length (columns_for five)) }
{
    for k in 0..column_count(five) {
        has[k] |= cell_at(five, k, &cells).is_some();
    }
    has
}

// How many columns are there.
#[tactic(auto, using(crate::proofs::Numbering::codes_counted))]
pub fn columns_present(five: bool, has: [bool; COLUMNS]) -> usize
    ensures { result ≡ length (codes_in five has) }
{
    has[..column_count(five)]
        .iter()
        .filter(|there| **there)
        .count()
}

// The bytes of an index of n rows. Callers keep both numbers small.
#[tactic(auto, using(crate::proofs::Pieces::codes_le), unfolding(crate::specs::Indexed::index_size))]
pub fn index_length(five: bool, has: [bool; COLUMNS], n: usize, slots: usize) -> usize
    requires { (n < 2 ^ 32) × (slots < 2 ^ 32) }
    ensures { result ≡ index_size (length (codes_in five has)) n slots }
{
    index::reading::section_length(columns_present(five, has), n, slots)
}
