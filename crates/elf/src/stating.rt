// Refusal 33: the encoding that the first unit of the first info that isn't empty states.
ghost use Rattle.std.specs.Prelude.{◌≡◌};
ghost use Rattle.octets.specs.Checked.{mapped};
ghost use Rattle.numbers.specs.Refused.{told};
ghost use Rattle.bundle.specs.Encoded.{encoding_is};
ghost use Rattle.unit.specs.Headers.{with_address, address_of};
ghost use Rattle.elf.specs.File.{wanted_of};
ghost use Rattle.elf.specs.Reader.{first_info, unit_stated, object_word};
ghost use Rattle.elf.specs.Held.{file_is, word_with};

use crate::accepted::Accepted;
use bundle::encoding::ObjectEncoding;
use bundle::initial_length;
use numbers::refusals::Refusal;
use numbers::sections::INFO;

// The versions that a unit may state.
const VERSION_4: u16 = numbers::tables::DWARF_4 as u16;

const VERSION_5: u16 = numbers::tables::DWARF_5 as u16;

// The bytes of the first info that isn't empty; none where there is no such info.
pub fn first_info<'a>(a: &Accepted<'a>) -> &'a [u8]
    ensures { result.now ≡ first_info a.now.file.bytes.now a.now.file.names.now (wanted_of (file_is a.now.file)) }
{
    for i in 0..a.file.count {
        if let Some(s) = a.section(i) {
            if s.code == INFO && !s.bytes.is_empty() {
                return s.bytes;
            }
        }
    }
    &[]
}

// The object word of an encoding with this address size.
#[tactic(auto, using(unit::proofs::Fields::width_le, crate::proofs::FirstUnit::version_most), unfolding(crate::specs::Reader::object_word, unit::specs::Headers::with_address))]
fn word_of(e: ObjectEncoding, address: u8) -> u32
    ensures { result ≡ object_word (with_address (encoding_is e) address) }
{
    0x1000_0000 + e.version() + 0x100 * e.width() as u32 + 0x1_0000 * u32::from(address)
}

// The word that a unit of this version and width states.
#[tactic(auto, unfolding(crate::specs::Held::word_with))]
fn word_stated(e: ObjectEncoding, s: &[u8]) -> Result<u32, Refusal>
    ensures { told result ≡ word_with (encoding_is e) (address_of (encoding_is e) s.now) }
{
    let address = unit::header::stated_address(e, s).map_err(|_| Refusal::NoUnit)?;
    Ok(word_of(e, address))
}

// Refusal 33: the word of the encoding that the first unit states, if it states one.
#[tactic(auto, using(crate::proofs::FirstUnit::stated_cases))]
pub fn first_unit(big: bool, s: &[u8]) -> Result<u32, Refusal>
    ensures { told result ≡ mapped object_word (unit_stated big s.now) }
{
    let four = ObjectEncoding {
        big,
        five: false,
        wide: initial_length::is_marked(big, s),
        long: false,
    };
    let field = four.field_size();
    if s.len() < field + 2 {
        return Err(Refusal::NoUnit);
    }
    match octets::u16_at(big, s, field) {
        VERSION_4 => word_stated(four, s),
        VERSION_5 => word_stated(ObjectEncoding { five: true, ..four }, s),
        _ => Err(Refusal::NoUnit),
    }
}
