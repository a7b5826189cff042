// The slots of both indexes, in the regions that held the identities seen.
ghost use Rattle.std.specs.Prelude.{length};
ghost use Rattle.finish.specs.Ready.{TablesPlaceable, TablesPlaced};

use kept::Units;
use kept::regions::{COMPILATION, TYPE};
use kept::slots::{TableSlots, place_units, slots_for};

// Places the units of both tables, for a bundle of so many words. Once for each table: over an array of both numbers with their rows it is no shorter.
pub fn place_tables(words: usize, units: Units, work: &mut [u32])
    requires { TablesPlaceable words units (length work.old) }
    ensures { TablesPlaced words units work.old work.new }
{
    let cu = TableSlots {
        words,
        table: COMPILATION,
        units: units.count,
        count: slots_for(units.cu.rows),
    };
    place_units(work, cu);
    let tu = TableSlots {
        table: TYPE,
        count: slots_for(units.tu.rows),
        ..cu
    };
    place_units(work, tu);
}
