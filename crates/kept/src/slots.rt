// Slots of record numbers: the identities seen, and the slots of an index. Both are sought by one walk, `Slots::seek`.
ghost use Rattle.std.specs.Prelude.{◌≡◌, ◌+◌, ◌*◌, ◌<◌, ◌≤◌, ◌^◌, length};
ghost use Rattle.octets.specs.Octets.{part, zeros};
ghost use Rattle.index.specs.Held.{PowerOfTwo};
ghost use Rattle.index.specs.Probing.{slots_for};
ghost use Rattle.kept.specs.Regions.{record_words, records_region, slots_region, region};
ghost use Rattle.kept.specs.Records.{unit_of};
ghost use Rattle.kept.specs.Slots.{
  seen_slots,
  Within,
  slots_in,
  sought_in,
  Seekable,
  Keepable,
  kept_in,
  Placeable,
  Placed,
  PlacedAll,
};

use crate::records::{KeptUnit, Records};
use crate::regions::{RECORD, RECORDS};
use index::probing::Probing;

// Which slots: the first count of a table's, in work for a bundle of so many words. They are over the records of so many units.
#[derive(Clone, Copy)]
pub struct TableSlots {
    pub words: usize,
    pub table: usize,
    pub units: usize,
    pub count: usize,
}

// The slots of a table: each number in them is that of one of the records.
#[derive(Clone, Copy)]
pub struct Slots<'a> {
    pub records: Records<'a>,
    pub slots: &'a [u32],
    ghost within: { Within slots.now records.count },
}

impl<'a> Slots<'a> {
    // Those that work has.
    pub fn of_work(work: &'a [u32], t: TableSlots) -> Slots<'a>
        requires { Seekable t.words work.now t.table t.units t.count }
        ensures records { result.records.words.now ≡ region work.now t.words records_region }
        ensures many { result.records.count ≡ t.units }
        ensures slots { result.slots.now ≡ slots_in work.now t.words t.table t.count }
    {
        let region = crate::regions::slots(t.table).part(work, t.words);
        Slots {
            records: Records::of_work(work, t.words, t.units),
            slots: &region[..t.count],
        }
    }

    // Where a walk ends: at the number of a record of the identity, or else at a free slot.
    // `Index::find` has a loop of this form too. One walk for both would take a closure for what a slot holds and what ends the walk, and both contracts would
    // say of that closure what they say of the slots now: no plainer.
    #[tactic(auto, using(crate::proofs::Seeking::seek_ends))]
    pub fn seek(self, x: u64) -> Result<usize, usize>
        requires { PowerOfTwo (length self.slots.now) }
        ensures { result ≡ sought_in self.entry.records.words.now self.entry.slots.now x }
    {
        let count = self.slots.len();
        let probing = Probing { slots: count };
        let by = probing.stride(x);
        let mut at = probing.first(x);
        for _looks in 0..count {
            // 0 stands for an unused slot: slots stand in lent words, which are numbers, since there is no heap for anything else.
            let number = self.slots[at] as usize;
            if number == 0 {
                return Err(at);
            }
            if self.records.identity_for(number) == x {
                return Ok(number);
            }
            at = probing.next(at, by);
        }
        Err(at)
    }
}

// The slots of an index of n rows.
#[tactic(auto, unfolding(index::specs::Probing::slots_for))]
pub fn slots_for(n: usize) -> usize
    requires { n < 2 ^ 31 }
    ensures { result ≡ slots_for n }
{
    if n < 2 {
        2
    } else {
        index::reading::least_power(3 * n / 2 + 1)
    }
}

// The slots of identities seen, for a bundle of so many words: its units, however many, take fewer than four of five. Fuller ones would make walks long. They are
// cleared before each call and met all over, so that they are as few as that lets them be.
#[tactic(auto, unfolding(crate::specs::Slots::seen_slots))]
pub fn seen_slots(words: usize) -> usize
    requires { words < 2 ^ 31 }
    ensures { result ≡ seen_slots words }
{
    let units = words / crate::regions::LEAST_UNIT;
    index::reading::least_power(5 * units / 4 + 1)
}

// Seeks an identity in slots of a table.
// Work stays a parameter beside `TableSlots` here and in the following: a struct of both would hold lent work, and callers lend other parts of it between two calls.
#[tactic(auto, unfolding(crate::specs::Slots::slots_in))]
pub fn seek_in(work: &[u32], t: TableSlots, x: u64) -> Result<usize, usize>
    requires { Seekable t.words work.now t.table t.units t.count }
    ensures { result ≡ sought_in (region work.now t.words records_region) (part work.now ((slots_region t.table).start * t.words) t.count) x }
{
    Slots::of_work(work, t).seek(x)
}

// Places record i in slots of a table, where it is one of that table. So many records are placed already.
fn place_unit(work: &mut [u32], t: TableSlots, i: usize)
    requires { Seekable t.words work.old t.table i t.count × (record_words * i + record_words ≤ records_region.words * t.words) }
    ensures { Placed t.words t.table i t.count work.old work.new }
{
    let records = Records::of_work(work, t.words, i + 1);
    if records.table_at(i) != t.table {
        return;
    }
    let x = records.identity_at(i);
    if let Err(at) = seek_in(work, TableSlots { units: i, ..t }, x) {
        let slots = crate::regions::slots(t.table).of(t.words);
        octets::set_word(work, slots.start + at, i + 1);
    }
}

// Places all records of a table, in slots that are cleared.
fn place_all(work: &mut [u32], t: TableSlots)
    requires { Placeable t.words (length work.old) t.table t.units t.count × (slots_in work.old t.words t.table t.count ≡ zeros t.count) }
    ensures { PlacedAll t.words t.table t.units t.count work.old work.new }
{
    for i in 0..t.units {
        place_unit(work, t, i);
    }
}

// Clears the slots of a table, and places all its records in them.
pub fn place_units(work: &mut [u32], t: TableSlots)
    requires { Placeable t.words (length work.old) t.table t.units t.count }
    ensures { PlacedAll t.words t.table t.units t.count work.old work.new }
{
    let slots = crate::regions::slots(t.table).of(t.words);
    let from = slots.start;
    let to = from + t.count;
    work[from..to].fill(0);
    place_all(work, t);
}

// Stores the record of a unit behind count others, and its number in a free slot of its table. Callers have sought the slot.
#[tactic(auto, using(crate::proofs::Placing::kept_by), unfolding(crate::specs::Records::unit_of))]
pub fn keep(work: &mut [u32], words: usize, count: usize, slot: usize, kept: KeptUnit)
    requires { Keepable words (length work.old) count slot }
    ensures { work.new ≡ kept_in work.old words count slot (unit_of kept.unit kept.five kept.cells) }
{
    let records = RECORDS.of(words);
    crate::records::store_unit(work, records.start + RECORD * count, kept);
    let slots = crate::regions::slots(kept.unit.table).of(words);
    octets::set_word(work, slots.start + slot, count + 1);
}
