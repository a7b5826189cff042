// A unit that is kept: its record and its slot.
ghost use Rattle.filing.specs.State.{StringsKept, TransientStay};
ghost use Rattle.filing.specs.Asked.{KeepAsked, UnitKept};

use index::judging::Contributions;
use kept::Table;
use kept::records::{KeptUnit, Unit};
use kept::state::InProgress;

// Its record behind the others, and its number in a slot, for a bundle of n words. Callers have sought the slot, so that no unit of its
// table and identity is kept, and all its cells fit.
// What is held and work stay two parameters: other parts of work are lent between two calls, so a struct of both would be made anew for each.
pub fn keep_unit(
    five: bool,
    n: usize,
    slot: usize,
    unit: Unit,
    k: Contributions,
    st: &mut InProgress,
    work: &mut [u32],
)
    requires { KeepAsked five n slot unit k st.old work.old }
    ensures held { UnitKept five n slot unit k st.old work.old work.new st.new }
    ensures strings { StringsKept n work.old work.new st.old st.new }
    ensures transient { TransientStay n work.old work.new }
{
    let place = st.units.bytes_of(unit.home);
    let cells = kept::cells::cells_of(k, st.bases, unit.home, place, unit.size);
    let kept = KeptUnit { unit, five, cells };
    kept::slots::keep(work, n, st.units.count, slot, kept);
    let old = st.units.table_of(unit.table);
    let t = Table {
        rows: unit.row,
        has: kept::columns::mark_columns(five, old.has, cells),
    };
    st.units = st
        .units
        .with_unit(unit.table, t, unit.home, place + unit.size);
}
