// A package that was opened, once for as many questions as there are.
ghost use Rattle.lookup.specs.Answers.{Opened};

use crate::opening::PackageHead;
use numbers::refusals::Refusal;

// The bytes of a package, and what they hold.
#[derive(Clone, Copy)]
pub struct Package<'a> {
    pub bytes: &'a [u8],
    pub head: PackageHead,
    pub ghost opened: { Opened bytes.now head },
}

impl<'a> Package<'a> {
    ghost use Rattle.std.specs.Prelude.{◌≡◌, IfOk};
    ghost use Rattle.numbers.specs.Refused.{told};
    ghost use Rattle.octets.specs.Checked.{mapped};
    ghost use Rattle.lookup.specs.Lookup.{package_of};
    ghost use Rattle.lookup.specs.Answers.{opened};

    #[tactic(auto, using(crate::proofs::Searches::opened_good), unfolding(octets::specs::Checked::mapped))]
    pub fn open(bytes: &'a [u8]) -> Result<Package<'a>, Refusal>
        ensures head { mapped (λ k. k.head) (told result) ≡ opened (package_of bytes.now) }
        ensures bytes { IfOk result (λ k. k.bytes.now ≡ bytes.now) }
    {
        let head = crate::opening::open_package(bytes)?;
        Ok(Package { bytes, head })
    }
}
