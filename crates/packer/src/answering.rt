// Both packers' answers as numbers, for the C entries.
ghost use Rattle.std.specs.Prelude.{◌≡◌, length};
ghost use Rattle.octets.specs.Octets.{zeros};
ghost use Rattle.package.specs.Pack.{packed};
ghost use Rattle.answers.specs.Answers.{output_of};
ghost use Rattle.packer.specs.Small.{packed_small};
ghost use Rattle.packer.specs.Told.{packed_as, numbered};

use crate::Made;
use answers::{Unwritten, Written};
use numbers::limits::SMALL_WORK;

// Code 0: the package, of that length, and how many type units were skipped. 18: the output is too short, with the length needed. Else the refusal and 0.
// But for code 0 both counts are 0. Numbers and no Result, since C callers read it.
#[repr(C)]
#[derive(Clone, Copy)]
pub struct Packed {
    pub code: u32,
    pub length: usize,
    pub repeats: usize,
    pub namesakes: usize,
}

impl From<Result<Made, Unwritten>> for Packed {
    ghost from_gives = { λ r p. p ≡ packed_as r };

    fn from(answer: Result<Made, Unwritten>) -> Packed {
        match answer {
            Ok(made) => Packed {
                code: 0,
                length: made.length,
                repeats: made.skipped.repeats,
                namesakes: made.skipped.namesakes,
            },
            Err(unwritten) => {
                let written = Written::from(Err(unwritten));
                Packed {
                    code: written.code,
                    length: written.length,
                    repeats: 0, // no package, no counts
                    namesakes: 0,
                }
            }
        }
    }
}

#[tactic(auto, using(crate::proofs::Counted::told_packing))]
pub fn answer_pack(b: &[u8], work: &mut [u32], out: &mut [u8]) -> Packed
    ensures answer { result ≡ numbered b.now (packed b.now (length work.old) (length out.old)) }
    ensures output { out.new ≡ output_of (packed b.now (length work.old) (length out.old)) (length out.old) }
    ensures work { work.new ≡ zeros (length work.old) }
{
    Packed::from(crate::pack_counted(b, work, out))
}

#[tactic(auto, using(crate::proofs::Counted::told_packing))]
pub fn answer_pack_small(b: &[u8], work: &mut [u32; SMALL_WORK], out: &mut [u8]) -> Packed
    ensures answer { result ≡ numbered b.now (packed_small b.now (length out.old)) }
    ensures output { out.new ≡ output_of (packed_small b.now (length out.old)) (length out.old) }
    ensures work { work.new ≡ zeros (length work.old) }
{
    Packed::from(crate::pack_small_counted(b, work, out))
}
