// The archive profile: each condition by what a package that was opened holds, and the verdict.
#![tactic(auto)]

ghost use Rattle.std.specs.Prelude.{◌≡◌};
ghost use Rattle.profile.specs.Profile.{failed_bits};
ghost use Rattle.profile.specs.Judged.{conditions_in, judged};

use lookup::opening::PackageHead;
use numbers::sections::MACRO;
use numbers::tables::INDEX_5;

// Code 0: in the profile. 1: not in it, with a bit for each condition that fails, the first one's the least. 21: a bad package, with no bit.
// A struct for C, so the code is a number.
#[repr(C)]
#[derive(Clone, Copy)]
pub struct Verdict {
    pub code: u32,
    pub failed: u32,
}

// ---- the conditions
// A head says of no object what it says of one with offsets of 4 bytes. A cu_index that is missing has no version and no rows that could be wrong.
fn conditions_of(object: bool, head: &PackageHead) -> [bool; 8]
    ensures { result ≡ conditions_in object head.now }
{
    let encoding = head.encoding;
    let cu = head.cu;
    [
        encoding.five,
        !encoding.big,
        object && !encoding.wide,
        encoding.long,
        head.sections.count[MACRO] == 0,
        cu.is_some(),
        cu.is_none_or(|index| index.version == INDEX_5),
        cu.is_none_or(|index| index.units != 0),
    ]
}

// A bit for each condition that fails.
#[tactic(auto, using(crate::proofs::Bits::bit_cases))]
fn failed_bits(holds: [bool; 8]) -> u32
    ensures { result ≡ failed_bits holds }
{
    let mut bits: u32 = 0;
    for condition in holds.iter().rev() {
        bits = u32::from(!*condition) + 2 * bits;
    }
    bits
}

// ---- the verdict
#[tactic(auto, using(crate::proofs::Verdicts::judged_good, crate::proofs::Verdicts::judged_bad))]
pub fn judge(package: &[u8]) -> Verdict
    ensures { result ≡ judged «package».now }
{
    match lookup::opening::open_package(package) {
        Ok(head) => {
            let failed = failed_bits(conditions_of(8 < package.len(), &head));
            Verdict {
                code: u32::from(failed != 0),
                failed,
            }
        }
        Err(refusal) => Verdict {
            code: refusal.number(),
            failed: 0,
        },
    }
}
