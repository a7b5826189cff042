// The bytes of the kept units: those of info, or of types, one behind the other, and those of one unit compared.
ghost use Rattle.std.specs.Prelude.{◌≡◌, List, ℕ, ◌+◌, ◌*◌, ◌-◌, ◌/◌, ◌<◌, ◌≤◌, length};
ghost use Rattle.octets.specs.Octets.{part, placed};
ghost use Rattle.octets.specs.Lists.{same};
ghost use Rattle.kept.specs.Regions.{record_words, records_region, region};
ghost use Rattle.kept.specs.Records.{record_at, bytes_of, bytes_from, UnitsInside};
ghost use Rattle.kept.specs.Slots.{SameAsked};

use crate::records::{HOME, Records, SIZE, START};
use crate::regions::RECORD;

impl Records<'_> {
    // The bytes of record i's unit.
    #[tactic(auto, using(octets::proofs::Parts::part_cut, crate::proofs::Copying::unit_inside), unfolding(crate::specs::Records::record_at, crate::specs::Records::bytes_of))]
    fn unit_bytes<'b>(self, b: &'b [u8], i: usize) -> &'b [u8]
        requires { (i < self.count) × UnitsInside b.now self.words.now (i + 1) }
        ensures { result.now ≡ bytes_of b.now (record_at self.entry.words.now i) }
    {
        let start = self.words[RECORD * i + START] as usize;
        let size = self.words[RECORD * i + SIZE] as usize;
        &b[start..start + size]
    }

    // Puts the bytes of record i's unit, where it is one of the section home; the place behind them.
    #[tactic(auto, using(crate::proofs::Copying::words_own, crate::proofs::Copying::words_other, octets::proofs::Placed::placed_none))]
    fn copy_unit(self, b: &[u8], i: usize, home: usize, out: &mut [u8], at: usize) -> usize
        requires { (i < self.count) × UnitsInside b.now self.words.now (i + 1) × (at + length (bytes_from b.now self.words.now home i 1) ≤ length out.old) }
        ensures out { out.new ≡ placed out.old at (bytes_from b.now self.entry.words.now home i 1) }
        ensures next { result ≡ at + length (bytes_from b.now self.entry.words.now home i 1) }
    {
        if self.words[RECORD * i + HOME] as usize != home {
            return at;
        }
        let bytes = self.unit_bytes(b, i);
        octets::put_bytes(out, at, bytes);
        at + bytes.len()
    }

    // Puts the bytes of all units of the section home, one behind the other. The caller has filed the units, and has room for all.
    #[tactic(auto, using(crate::proofs::Copying::copying_end, crate::proofs::Copying::bytes_end))]
    pub fn copy_units(self, b: &[u8], home: usize, out: &mut [u8], at: usize)
        requires { UnitsInside b.now self.words.now self.count × (at + length (bytes_from b.now self.words.now home 0 self.count) ≤ length out.old) }
        ensures { out.new ≡ placed out.old at (bytes_from b.now self.entry.words.now home 0 self.entry.count) }
    {
        let mut o = at;
        for i in 0..self.count {
            o = self.copy_unit(b, i, home, out, o);
        }
    }
}

// Whether so many bytes of the bundle at a place are those of a record's unit, by the number that a slot holds. Lengths are compared first, so that it costs
// no more than the unit at the place.
#[tactic(auto, using(octets::proofs::Parts::part_cut))]
pub fn same_as_kept(b: &[u8], work: &[u32], number: usize, at: usize, size: usize) -> bool
    requires { SameAsked b.now work.now number at size }
    ensures { result ≡ same (part b.now at size) (bytes_of b.now (record_at (region work.now (length b.now / 4) records_region) (number - 1))) }
{
    let records = Records::of_work(work, b.len() / 4, number);
    octets::same_bytes(&b[at..at + size], records.unit_bytes(b, number - 1))
}
