// The sizes of all sections of the package.
ghost use Rattle.std.specs.Prelude.{◌≡◌, ◌≤◌};
ghost use Rattle.numbers.specs.Limits.{words_limit};
ghost use Rattle.finish.specs.Ready.{index_size_of, sizes_of};

use kept::Table;
use kept::state::InProgress;
use numbers::sections::{CODES, CU_INDEX, INFO, STR, TU_INDEX, TYPES};

// The bytes of a table's index, 0 without rows.
#[tactic(auto, using(index::proofs::Slots::slots_for_fits), unfolding(crate::specs::Ready::index_size_of))]
fn index_size(five: bool, t: Table) -> usize
    requires { t.rows ≤ words_limit }
    ensures { result ≡ index_size_of five t }
{
    if t.rows == 0 {
        return 0;
    }
    kept::columns::index_length(five, t.has, t.rows, kept::slots::slots_for(t.rows))
}

// By section code. The caller has filed all objects.
#[tactic(auto, unfolding(crate::specs::Ready::sizes_of))]
pub fn section_sizes(five: bool, st: InProgress) -> [usize; CODES]
    requires { (st.units.cu.rows ≤ words_limit) × (st.units.tu.rows ≤ words_limit) }
    ensures { result ≡ sizes_of five st }
{
    let mut sizes = st.bases;
    sizes[0] = 0;
    sizes[INFO] = st.units.info;
    sizes[TYPES] = st.units.types;
    sizes[STR] = st.strings.size;
    sizes[CU_INDEX] = index_size(five, st.units.cu);
    sizes[TU_INDEX] = index_size(five, st.units.tu);
    sizes
}
