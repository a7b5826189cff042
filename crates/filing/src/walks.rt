// The units of a section, one behind the other, and the sections of units of an object.
ghost use Rattle.filing.specs.State.{Remembered};
ghost use Rattle.filing.specs.Asked.{
  SectionAsked,
  SectionAnswered,
  ObjectAsked,
  ObjectAnswered,
};

use crate::input::InputObject;
use crate::units::{HomeSection, Reading};
use kept::state::InProgress;
use numbers::refusals::Refusal;
use unit::judged::Judged;

impl<'a> Reading<'a> {
    // All units of the section. Where they are read by their place, the rows are chained first.
    // A loop, since each unit says where the next starts. What is held, the tables and work stay three parameters here and in what is below: each is lent
    // alone to some of it.
    #[tactic(auto, using(crate::proofs::Walking::walking_none, crate::proofs::Transients::transient_chained))]
    pub fn add_units(
        &self,
        st: &mut InProgress,
        judged: &mut Judged,
        work: &mut [u32],
    ) -> Result<(), Refusal>
        requires { SectionAsked self.now st.old work.old × Remembered self.now.bundle.now work.old judged.old }
        ensures filed { SectionAnswered self.now st.old st.new work.old work.new result }
        ensures memory { Remembered self.now.bundle.now work.new judged.new }
    {
        self.chain_rows(work);
        let mut at = self.section.start;
        while at < self.section.stop {
            at += self.file_unit(at, st, judged, work)?;
        }
        Ok(())
    }
}

// All sections of units of one object, whose sections start at from. No table is remembered from the object before.
// A loop, since each section says where the next starts.
#[tactic(auto, using(crate::proofs::OverSections::sectioned_none))]
pub fn add_sections(
    b: &[u8],
    x: &InputObject,
    from: usize,
    st: &mut InProgress,
    work: &mut [u32],
) -> Result<(), Refusal>
    requires { ObjectAsked b.now x.now from st.old work.old }
    ensures { ObjectAnswered b.now x.now from st.old st.new work.old work.new result }
{
    let mut at = from;
    let mut judged = Judged::nothing();
    while let Some(found) = bundle::next_unit_section(b, at) {
        let section = HomeSection {
            home: found.code as usize,
            start: found.start,
            stop: found.start + found.size,
        };
        let reading = Reading {
            bundle: b,
            object: x,
            section,
        };
        reading.add_units(st, &mut judged, work)?;
        at = found.next;
    }
    Ok(())
}
