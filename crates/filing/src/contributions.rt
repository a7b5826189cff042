// 15 and 16: what a unit that is kept contributes of its object's shared sections.
ghost use Rattle.std.specs.Prelude.{◌≡◌, ◌<◌, IfSome};
ghost use Rattle.octets.specs.Options.{found};
ghost use Rattle.std.proofs.Math.Option.{Option};
ghost use Rattle.index.specs.Index.{Index};
ghost use Rattle.package.specs.Input.{Input};
ghost use Rattle.package.specs.Filing.{index_for};
ghost use Rattle.index.specs.Contributed.{by_code};
ghost use Rattle.index.specs.Held.{Well};
ghost use Rattle.filing.specs.Judged.{InputIs};
ghost use Rattle.filing.specs.Contributing.{whole_given, GivenIs, GivenBy, GivenByNumber, ContributionsGiven};

use crate::input::{InputObject, held};
use index::judging::{Contributions, Measures, OwnUnit};
use index::reading::Index;
use kept::regions::COMPILATION;
use numbers::refusals::Refusal;
use numbers::sections::{CODES, CU_INDEX, TU_INDEX};
use unit::header::UnitRead;

// A unit that was read, with its table by number: 1, or any other for that of type units. The two
// cases of an enum would ask more of a caller than the number does.
#[derive(Clone, Copy)]
pub struct ReadUnit {
    pub size: usize,
    pub table: usize,
    pub identity: u64,
}

// Without an index for the unit's table: its object's sections as a whole, but 15 in a package.
#[tactic(auto, using(crate::proofs::Contributing::whole_fifteen, crate::proofs::Contributing::whole_passes))]
fn whole_given(packed: bool, lengths: [usize; CODES]) -> Result<Contributions, Refusal>
    ensures { GivenIs (whole_given packed (by_code lengths)) result }
{
    if packed {
        return Err(Refusal::NoRow);
    }
    Ok(index::judging::whole_contributions(lengths))
}

// By the index of the unit's table, where there is one.
#[tactic(auto, using(crate::proofs::Contributing::given_some, crate::proofs::Contributing::given_none), unfolding(index::specs::Contributed::judged_row))]
fn indexed_contributions(
    index: Option<Index>,
    packed: bool,
    m: Measures,
    u: OwnUnit,
) -> Result<Contributions, Refusal>
    requires { IfSome index Well }
    ensures { (o : Option Index) → index.entry ≡ found o → GivenBy packed o m u result }
{
    match index {
        Some(index) => index.judge_row(m, u),
        None => whole_given(packed, m.lengths),
    }
}

impl InputObject {
    // The index of a table, where the object has it.
    #[tactic(auto, unfolding(package::specs::Filing::index_for))]
    fn index_for<'a>(&self, b: &'a [u8], table: usize) -> Option<Index<'a>>
        requires { (i : Input) × InputIs b.now self.now i }
        ensures is { (i : Input) → InputIs b.now self.now i → result ≡ found (index_for i table) }
        ensures well { IfSome result Well }
    {
        let big = self.encoding.big;
        if table == COMPILATION {
            held(big, self.section(b, CU_INDEX), self.cu)
        } else {
            held(big, self.section(b, TU_INDEX), self.tu)
        }
    }

    // A unit at a place of the section home, whatever number its table has.
    #[tactic(auto, using(crate::proofs::Contributing::given_cases))]
    pub fn contributions_of(
        &self,
        b: &[u8],
        home: usize,
        at: usize,
        read: ReadUnit,
    ) -> Result<Contributions, Refusal>
        requires { (i : Input) × InputIs b.now self.now i }
        ensures { GivenByNumber b.now self.now home at read result }
    {
        let m = Measures {
            width: self.encoding.width(),
            lengths: self.size,
        };
        let u = OwnUnit {
            identity: read.identity,
            home,
            at,
            size: read.size,
        };
        let index = self.index_for(b, read.table);
        indexed_contributions(index, self.is_package(), m, u)
    }

    // A unit that was read there.
    pub fn contributions(
        &self,
        b: &[u8],
        home: usize,
        at: usize,
        read: UnitRead,
    ) -> Result<Contributions, Refusal>
        requires { (i : Input) × InputIs b.now self.now i }
        ensures { ContributionsGiven b.now self.now home at read result }
    {
        let handed_in = read.handed_in;
        let read = ReadUnit {
            size: read.size,
            table: handed_in.table.number() as usize,
            identity: handed_in.identity,
        };
        self.contributions_of(b, home, at, read)
    }
}
