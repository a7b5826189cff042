// The rows of an index by the place that they name in a section: a chain of rows for each word of the section, so that the rows of one place are found without a
// walk over all of them. In lent words: first the heads of the chains, one for each word of the section, then for each row the next one of its chain; 0 ends it.
// The end is a number, not an enum: the chains stand in lent words, which are numbers, since there is no heap for anything else.
ghost use Rattle.std.specs.Prelude.{◌≡◌, ℕ, ◌+◌, ◌/◌, ◌<◌, ◌≤◌, ◌^◌, length};
ghost use Rattle.numbers.specs.Refused.{told};
ghost use Rattle.numbers.specs.Sections.{info_code};
ghost use Rattle.index.specs.Index.{cell_of};
ghost use Rattle.index.specs.Rows.{naming, the_one, cell_is, own_place};
ghost use Rattle.places.specs.Chains.{Chained, with_cell};

use index::cells::{Contribution, Row};
use index::reading::Index;
use numbers::refusals::Refusal;
use numbers::sections::INFO;

// The words, and how many of them are heads, stay two parameters here and in the following: other parts of the same work are lent between two calls, so a struct
// of both would be made anew for each call, and be taken apart in it.

// Puts a row before those of its word. One that names no place of the section is in no chain.
#[tactic(auto, using(crate::proofs::Chaining::put_none, crate::proofs::Chaining::put_outside, crate::proofs::Chaining::put_inside))]
fn chain_row(words: &mut [u32], heads: usize, row: usize, cell: Option<Contribution>)
    requires { (0 < row) × (row < 2 ^ 32) × (heads + row ≤ length words.old) }
    ensures { words.new ≡ with_cell words.old heads row cell }
{
    let Some(place) = cell else {
        return;
    };
    let word = place.offset / 4;
    if word < heads {
        words[heads + row - 1] = words[word];
        words[word] = row as u32;
    }
}

// Chains all rows of an index by the places that they name in a section. The caller lends a word for each head and each row.
pub fn chain_rows(index: &Index, section: usize, heads: usize, words: &mut [u32])
    requires { (index.now.units < 2 ^ 32) × (heads + index.now.units ≤ length words.old) }
    ensures { Chained index.now section heads words.new }
{
    words[..heads].fill(0);
    for row in 1..index.head().units + 1 {
        let cell = index.cell_of(row, section);
        chain_row(words, heads, row, cell);
    }
}

// Whether a row names a place of info.
#[tactic(auto, using(crate::proofs::Chaining::names_none, crate::proofs::Chaining::names_some))]
fn names(row: Row, at: usize, size: usize) -> bool
    ensures { result ≡ cell_is (own_place at size) (cell_of row.entry.index.now row.entry.number info_code) }
{
    row.cell(INFO) == Some(Contribution { offset: at, size })
}

// The one row that names a place of info; 15 where there is none or several. The caller has chained the rows by info, and the place lies in it.
pub fn row_at(
    index: &Index,
    heads: usize,
    words: &[u32],
    at: usize,
    size: usize,
) -> Result<usize, Refusal>
    requires { (at / 4 < heads) × Chained index.now info_code heads words.now }
    ensures { told result ≡ the_one (naming index.now at size) }
{
    let mut found = None;
    let mut row = words[at / 4] as usize;
    for passed in 0..index.head().units {
        if row == 0 {
            break;
        }
        if names(Row { index, number: row }, at, size) {
            if found.is_some() {
                return Err(Refusal::NoRow);
            }
            found = Some(row);
        }
        row = words[heads + row - 1] as usize;
    }
    found.ok_or(Refusal::NoRow)
}
