// What packing needs cleared of work before it: the slots of identities seen, and the roots of the strings' index. All else
// is stored before it is read.
ghost use Rattle.std.specs.Prelude.{◌≤◌, length};
ghost use Rattle.packer.specs.Objects.{
  Clearable,
  SlotsCleared,
  RootsCleared,
  NoneHeld,
};

use kept::regions::{COMPILATION, TYPE};
use numbers::limits::STRING_WORDS;

// The roots are the last words of a table: they lie behind so many others for each string that it has room for.
const ROOTS_FROM: usize = STRING_WORDS - 1;

// Clears the slots of identities seen of a table, for a bundle of n words.
fn clear_table(n: usize, table: usize, work: &mut [u32])
    requires { Clearable n (length work.old) }
    ensures { SlotsCleared n table work.old work.new }
{
    let count = kept::slots::seen_slots(n);
    let slots = kept::regions::slots(table).of(n);
    let from = slots.start;
    let to = from + count;
    crate::zeroing::clear_lent(&mut work[from..to]);
}

// The roots of the strings' index, for a bundle of n words and a table with so much room: one that is not 0 leads to a string. Beside `clear_table`, and not one
// with it: they lie in another region, behind the other words of the table, and each promises something else of work.
fn clear_roots(n: usize, room: usize, work: &mut [u32])
    requires { Clearable n (length work.old) × (room ≤ n) }
    ensures { RootsCleared n room work.old work.new }
{
    let strings = kept::regions::STRINGS.of(n);
    let first = strings.start + ROOTS_FROM * room;
    let last = first + room;
    crate::zeroing::clear_lent(&mut work[first..last]);
}

// The slots of both tables, and the roots.
#[tactic(auto, using(crate::proofs::Slots::all_cleared))]
pub fn clear_slots(n: usize, room: usize, work: &mut [u32])
    requires { Clearable n (length work.old) × (room ≤ n) }
    ensures { NoneHeld n room work.new }
{
    clear_table(n, COMPILATION, work);
    clear_table(n, TYPE, work);
    clear_roots(n, room, work);
}
