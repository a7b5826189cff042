// What a unit has of each section: where it lies in the package's sections. And the bases there, which grow with each object.
ghost use Rattle.std.specs.Prelude.{◌≡◌, ℕ, ◌+◌, ◌<◌, ◌^◌, length, slice_index};
ghost use Rattle.numbers.specs.Sections.{section_codes};
ghost use Rattle.index.specs.Contributed.{cell_held, stated};
ghost use Rattle.kept.specs.Columns.{CellsFit};
ghost use Rattle.kept.specs.Cells.{CellsAfter, CellsRoom, CellsMoved, Summed};

use index::cells::Contribution;
use index::judging::Contributions;
use numbers::sections::CODES;

// The same cells in the package's sections, where the sections of the unit's object begin at the bases.
#[tactic(auto, unfolding(crate::specs::Cells::moved_by))]
fn moved(k: Contributions, bases: [usize; CODES]) -> Contributions
    requires { (c : ℕ) → c < section_codes → slice_index bases c + (stated (cell_held k c)).offset < 2 ^ 32 }
    ensures { CellsAfter k bases result }
{
    let mut cells = k;
    for c in 0..CODES {
        if let Some(part) = k.cells[c] {
            cells.cells[c] = Some(Contribution {
                offset: bases[c] + part.offset,
                ..part
            });
        }
    }
    cells
}

// The cells of a unit of so many bytes of the section home, which lie at a place of the package's.
pub fn cells_of(
    k: Contributions,
    bases: [usize; CODES],
    home: usize,
    place: usize,
    size: usize,
) -> Contributions
    requires { CellsRoom k bases home place size }
    ensures cells { CellsMoved k bases home place size result }
    ensures fit { CellsFit result }
{
    let mut cells = moved(k, bases);
    cells.cells[home] = Some(Contribution {
        offset: place,
        size,
    });
    cells
}

// The bases with one object more, whose sections have these sizes.
pub fn grown(mut bases: [usize; CODES], size: [usize; CODES]) -> [usize; CODES]
    requires { (c : ℕ) → c < section_codes → slice_index bases c + slice_index size c < 2 ^ 64 }
    ensures { Summed bases size result section_codes }
{
    for c in 0..CODES {
        bases[c] += size[c];
    }
    bases
}
