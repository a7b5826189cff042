// What an object word states, in a form that holds only what refusal 4 lets pass.
ghost use Rattle.std.specs.Prelude.{◌≡◌};
ghost use Rattle.octets.specs.Checked.{mapped};
ghost use Rattle.numbers.specs.Refused.{told};
ghost use Rattle.bundle.specs.Encoded.{encoding_is, encoding_checked};
ghost use Rattle.bundle.specs.Encoding.{encoding_of};

use numbers::refusals::Refusal;
use numbers::tables::{DWARF_4, DWARF_5};

// The byte order of the data, version 5 or else 4, offsets of 8 bytes or else 4, addresses of 8 bytes or else 4.
#[derive(Clone, Copy)]
pub struct ObjectEncoding {
    pub big: bool,
    pub five: bool,
    pub wide: bool,
    pub long: bool,
}

impl ObjectEncoding {
    #[tactic(auto, unfolding(crate::specs::Encoded::encoding_is, crate::specs::Encoded::four))]
    pub fn version(self) -> u32
        ensures { result ≡ (encoding_is self).version }
    {
        if self.five { DWARF_5 } else { DWARF_4 }
    }

    // The bytes of an offset.
    #[tactic(auto, unfolding(crate::specs::Encoded::encoding_is, crate::specs::Encoded::four))]
    pub fn width(self) -> usize
        ensures { result ≡ (encoding_is self).width }
    {
        if self.wide { 8 } else { 4 }
    }

    // The bytes of an address.
    #[tactic(auto, unfolding(crate::specs::Encoded::encoding_is, crate::specs::Encoded::four))]
    pub fn address(self) -> usize
        ensures { result ≡ (encoding_is self).address }
    {
        if self.long { 8 } else { 4 }
    }
}

// The encoding that an object word states. Refused is any version but 4 and 5, and any size but 4 and 8.
#[tactic(auto, using(crate::proofs::Encodings::checked_bad), unfolding(crate::specs::Encoding::encoding_of, crate::specs::Encoding::encoding_good, octets::specs::Checked::mapped))]
pub fn read_word(big: bool, word: u32) -> Result<ObjectEncoding, Refusal>
    ensures { mapped encoding_is (told result) ≡ encoding_checked (encoding_of big word) }
{
    let version = word % 256;
    let width = word / 256 % 256;
    let address = word / 0x1_0000 % 256;
    match (version, width, address) {
        (DWARF_4 | DWARF_5, 4 | 8, 4 | 8) => Ok(ObjectEncoding {
            big,
            five: version == DWARF_5,
            wide: width == 8,
            long: address == 8,
        }),
        _ => Err(Refusal::BadEncoding),
    }
}
