// A bundle packed, and one question put to its package: what was handed in under an identity is found there, and nothing else is.
ghost use Rattle.std.specs.Prelude.{◌≡◌, Err, length};
ghost use Rattle.octets.specs.Octets.{zeros};
ghost use Rattle.package.specs.Pack.{packed};
ghost use Rattle.answers.specs.Answers.{output_of};
ghost use Rattle.answers.specs.Written.{written_as};
ghost use Rattle.archive.specs.Question.{unpacked, PartAnswered, StringAnswered};

use answers::{Unwritten, Written};
use lookup::answering::Answer;
use lookup::searching::UnitAsked;

// Where no package was made: neither found nor absent, and no refusal of a lookup.
const NOT_LOOKED_UP: u32 = 2;

// Packing's answer: 0 and the package's length, 18 and the length needed, else the refusal and 0. Where it is 0, the lookup's answer,
// else `NOT_LOOKED_UP` and zeros. Numbers, since C callers read it, and flat, as the header of C has it: so `answered` copies the four of the lookup.
#[repr(C)]
#[derive(Clone, Copy)]
pub struct FromBundle {
    pub packing: u32,
    pub packed: usize,
    pub code: u32,
    pub start: usize,
    pub length: usize,
    pub looks: usize,
}

impl From<Unwritten> for FromBundle {
    ghost from_gives = { λ u r. r ≡ unpacked (written_as (Err u)).code (written_as (Err u)).length };

    #[tactic(auto, unfolding(crate::specs::Question::unpacked))]
    fn from(unwritten: Unwritten) -> FromBundle {
        let packing = Written::from(Err(unwritten));
        FromBundle {
            packing: packing.code,
            packed: packing.length,
            code: NOT_LOOKED_UP,
            start: 0,
            length: 0,
            looks: 0,
        }
    }
}

// A package of that length was made, and a lookup answered.
fn answered(packed: usize, answer: Answer) -> FromBundle
    ensures { result ≡ record { packing = 0; packed = «packed»; code = answer.code; start = answer.start; length = answer.length; looks = answer.looks } }
{
    let Answer {
        code,
        start,
        length,
        looks,
    } = answer;
    FromBundle {
        packing: 0,
        packed,
        code,
        start,
        length,
        looks,
    }
}

// The part of a section. This and the following one are two functions, since each promises a lookup of its own. One over any lookup would take it as a
// function and speak of that function's answer; one over an enum of both questions would have to tell them apart again, in its body and in its clause.
pub fn pack_and_look_up(
    b: &[u8],
    work: &mut [u32],
    out: &mut [u8],
    unit: UnitAsked,
    section: u32,
) -> FromBundle
    ensures answer { PartAnswered b.now (length work.old) (length out.old) unit.version unit.table unit.identity section result }
    ensures output { out.new ≡ output_of (packed b.now (length work.old) (length out.old)) (length out.old) }
    ensures work { work.new ≡ zeros (length work.old) }
{
    match packer::pack(b, work, out) {
        Ok(n) => {
            let answer = lookup::answering::answer_part(&out[..n], unit, section);
            answered(n, answer)
        }
        Err(unwritten) => FromBundle::from(unwritten),
    }
}

// The string of an entry.
pub fn pack_and_look_up_string(
    b: &[u8],
    work: &mut [u32],
    out: &mut [u8],
    unit: UnitAsked,
    entry: u64,
) -> FromBundle
    ensures answer { StringAnswered b.now (length work.old) (length out.old) unit.version unit.table unit.identity entry result }
    ensures output { out.new ≡ output_of (packed b.now (length work.old) (length out.old)) (length out.old) }
    ensures work { work.new ≡ zeros (length work.old) }
{
    match packer::pack(b, work, out) {
        Ok(n) => {
            let answer = lookup::answering::answer_string(&out[..n], unit, entry);
            answered(n, answer)
        }
        Err(unwritten) => FromBundle::from(unwritten),
    }
}
