// DWARF's initial length, which says how many bytes follow it: a number of 4 bytes; or FFFFFFFF, and a number of 8 bytes behind it.
ghost use Rattle.std.specs.Prelude.{◌≡◌, ◌≤◌, length};
ghost use Rattle.bundle.specs.Encoded.{encoding_is};
ghost use Rattle.bundle.specs.InitialLength.{marked, length_field, length_stated};

use crate::encoding::ObjectEncoding;

// What stands before a number of 8 bytes.
const MARK: u32 = 0xFFFF_FFFF;

impl ObjectEncoding {
    // The bytes of the field.
    #[tactic(auto, unfolding(crate::specs::Encoded::encoding_is, crate::specs::Encoded::four, crate::specs::InitialLength::length_field))]
    pub fn field_size(self) -> usize
        ensures { result ≡ length_field (encoding_is self) }
    {
        if self.wide { 12 } else { 4 }
    }

    // The number in it. The caller knows that the field is there.
    #[tactic(auto, unfolding(crate::specs::Encoded::encoding_is, crate::specs::Encoded::four, crate::specs::InitialLength::length_field, crate::specs::InitialLength::length_stated))]
    pub fn stated_length(self, s: &[u8]) -> u64
        requires { length_field (encoding_is self) ≤ length s.now }
        ensures { result ≡ length_stated (encoding_is self) s.now }
    {
        if self.wide {
            octets::number_at(self.big, 8, s, 4)
        } else {
            octets::number_at(self.big, 4, s, 0)
        }
    }
}

// FFFFFFFF stands at the front.
#[tactic(auto, using(crate::proofs::InitialLengths::marked_short), unfolding(crate::specs::InitialLength::marked))]
pub fn is_marked(big: bool, s: &[u8]) -> bool
    ensures { result ≡ marked big s.now }
{
    4 <= s.len() && octets::u32_at(big, s, 0) == MARK
}
