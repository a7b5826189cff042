// One unit read and filed: 11 to 16.
ghost use Rattle.std.specs.Prelude.{◌≡◌, ◌<◌, ◌^◌};
ghost use Rattle.numbers.specs.Tabled.{table_number};
ghost use Rattle.kept.specs.Held.{pick};
ghost use Rattle.filing.specs.State.{words_in, TransientStay};
ghost use Rattle.filing.specs.Choices.{KnownAsked, KnownIs, unit_for};
ghost use Rattle.filing.specs.Asked.{
  ReadAsked,
  ReadFiled,
  Transient,
  UnitAsked,
  UnitAnswered,
};

use crate::units::Reading;
use kept::Units;
use kept::records::Unit;
use kept::slots::TableSlots;
use kept::state::InProgress;
use numbers::refusals::Refusal;
use numbers::tables::Table;
use unit::header::UnitRead;
use unit::judged::Judged;

// A unit whose table and identity are those of the record with a number: 14, or skipped and compared with the kept one.
fn file_known(
    b: &[u8],
    number: usize,
    at: usize,
    read: UnitRead,
    st: &mut InProgress,
    work: &[u32],
) -> Result<usize, Refusal>
    requires { KnownAsked b.now number at read.size st.old work.now }
    ensures { KnownIs b.now number at (table_number read.handed_in.table) read.size st.old st.new work.now result }
{
    if read.handed_in.table == Table::Compilation {
        return Err(Refusal::IdentitySeen);
    }
    let agrees = kept::unit_bytes::same_as_kept(b, work, number, at, read.size);
    st.skip_one(agrees);
    Ok(read.size)
}

// What is stored of a unit that was read at a place of the bundle. Callers have few rows.
fn unit_for(units: Units, home: usize, at: usize, read: UnitRead) -> Unit
    requires { (pick (table_number read.handed_in.table) units.cu units.tu).rows < 2 ^ 32 }
    ensures { result ≡ unit_for units home at read }
{
    let table = read.handed_in.table.number() as usize;
    Unit {
        table,
        row: units.table_of(table).rows + 1,
        identity: read.handed_in.identity,
        home,
        start: at,
        size: read.size,
    }
}

impl<'a> Reading<'a> {
    // A unit that was read: 14, skipped, 15 and 16, or kept. A free slot is always found, since slots exceed units.
    #[tactic(auto, using(crate::proofs::Transients::transient_none))]
    fn file_read(
        &self,
        at: usize,
        read: UnitRead,
        st: &mut InProgress,
        work: &mut [u32],
    ) -> Result<usize, Refusal>
        requires { ReadAsked self.now at read st.old work.old }
        ensures filed { ReadFiled self.now at read st.old st.new work.old work.new result }
        ensures transient { TransientStay (words_in self.now.bundle.now) work.old work.new }
    {
        let b = self.bundle;
        let x = self.object;
        let home = self.section.home;
        let n = b.len() / 4;
        let table = read.handed_in.table.number() as usize;
        let identity = read.handed_in.identity;
        let slots = TableSlots {
            words: n,
            table,
            units: st.units.count,
            count: kept::slots::seen_slots(n),
        };
        let slot = match kept::slots::seek_in(work, slots, identity) {
            Ok(number) => return file_known(b, number, at, read, st, work),
            Err(slot) => slot,
        };
        let k = x.contributions(b, home, at - self.section.start, read)?;
        let unit = unit_for(st.units, home, at, read);
        crate::keep::keep_unit(x.encoding.five, n, slot, unit, k, st, work);
        Ok(read.size)
    }

    // The unit at a place of the section, and its size. The abbreviation tables that were judged are remembered.
    #[tactic(auto, using(crate::proofs::Transients::transient_stays))]
    pub fn file_unit(
        &self,
        at: usize,
        st: &mut InProgress,
        judged: &mut Judged,
        work: &mut [u32],
    ) -> Result<usize, Refusal>
        requires { UnitAsked self.now at st.old work.old × Transient self.now judged.old work.old }
        ensures filed { UnitAnswered self.now at st.old st.new work.old work.new result }
        ensures transient { Transient self.now judged.new work.new }
    {
        let read = self.read_at(at, judged, work)?;
        self.file_read(at, read, st, work)
    }
}
