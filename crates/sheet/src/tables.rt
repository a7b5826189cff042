// A table of a package that was opened: the bytes that its lines take, and the lines.
ghost use Rattle.std.specs.Prelude.{◌≡◌, MatchOption, length};
ghost use Rattle.std.proofs.Math.Option.{some, none};
ghost use Rattle.numbers.specs.Refused.{told};
ghost use Rattle.octets.specs.Checked.{mapped};
ghost use Rattle.lookup.specs.Lookup.{index_for};
ghost use Rattle.lookup.specs.Answers.{package_in};
ghost use Rattle.sheet.specs.Held.{IndexHere};
ghost use Rattle.sheet.specs.Laid.{letter_of, table_of, both_of, lines_of, TableFits, BothFit};

use crate::rows::IndexTableRef;
use index::reading::Index;
use lookup::package::Package;
use numbers::refusals::Refusal;
use numbers::tables::{COMPILATION, TYPE};

// A table is named by its number here, 1, or any other for the type units': `measure_table` takes any, and a type of two would ask more of callers.
#[tactic(auto, unfolding(crate::specs::Laid::letter_of))]
fn letter_of(table: u32) -> u8
    ensures { result ≡ letter_of table }
{
    if table == COMPILATION { b'C' } else { b'T' }
}

// The index of a table, if it is there.
#[tactic(auto, using(crate::proofs::LawTables::table_here))]
fn index_of<'a>(package: &Package<'a>, table: u32) -> Option<Index<'a>>
    ensures { MatchOption result
        (index_for (package_in «package».now.bytes.now) table ≡ none)
        (λ i. (index_for (package_in «package».now.bytes.now) table ≡ some i) × IndexHere i) }
{
    package.index(table)
}

// Refused is a table with a row that has not exactly one slot.
#[tactic(auto, using(crate::proofs::LawTables::table_bad, crate::proofs::LawTables::table_measured, crate::proofs::LawTables::missing_measured))]
pub fn measure_table(package: &Package, table: u32) -> Result<usize, Refusal>
    ensures { told result ≡ mapped length (table_of «package».now.bytes.now table) }
{
    let Some(index) = index_of(package, table) else {
        return Ok(0);
    };
    let t = IndexTableRef::of(letter_of(table), &index);
    if t.is_single() {
        Ok(t.size())
    } else {
        Err(Refusal::BadPackage)
    }
}

// Stores the lines of a table at the front of a page of zeros. The caller has measured them.
#[tactic(auto, using(crate::proofs::LawTables::table_room, crate::proofs::LawTables::missing_lines))]
fn write_table(package: &Package, table: u32, page: &mut [u8])
    requires { TableFits «package».now.bytes.now table page.old }
    ensures { page.new ≡ lines_of (table_of «package».now.bytes.now table) (length page.old) }
{
    if let Some(index) = index_of(package, table) {
        IndexTableRef::of(letter_of(table), &index).put_rows(page);
    }
}

// Stores both tables, one following the other. The caller gives the length of the first.
#[tactic(auto, using(crate::proofs::LawSheet::both_laid))]
pub fn write_tables(package: &Package, compilations: usize, page: &mut [u8])
    requires { BothFit «package».now.bytes.now compilations page.old }
    ensures { page.new ≡ lines_of (both_of «package».now.bytes.now) (length page.old) }
{
    write_table(package, COMPILATION, page);
    write_table(package, TYPE, &mut page[compilations..]);
}
