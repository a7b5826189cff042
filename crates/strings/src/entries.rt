// Entries of a str_offsets section (8), and the string that stands at an offset of str (9).
ghost use Rattle.std.specs.Prelude.{◌≡◌, ◌&&◌, ◌||◌, ℕ, ◌+◌, ◌≤◌, ◌<◌, length, ◌==◌, slice_index};
ghost use Rattle.numbers.specs.Tables.{dwarf5};
ghost use Rattle.numbers.specs.Refused.{told};
ghost use Rattle.octets.specs.Octets.{number_at};
ghost use Rattle.octets.specs.Checked.{mapped};
ghost use Rattle.bundle.specs.Encoded.{encoding_is};
ghost use Rattle.bundle.specs.InitialLength.{marked};
ghost use Rattle.strings.specs.Strings.{
  header_size,
  header_true,
  entries_in,
  entries_of,
  string_at,
};
ghost use Rattle.strings.specs.Answers.{place_check, string_place};
ghost use Rattle.strings.specs.Remembered.{LastZero};

use crate::table::Place;
use bundle::encoding::ObjectEncoding;
use bundle::initial_length;
use numbers::refusals::Refusal;

// The version that a header states.
const VERSION: u16 = numbers::tables::DWARF_5 as u16;

// A str_offsets section or a piece of one, in the encoding of its object.
#[derive(Clone, Copy)]
pub struct Section<'a> {
    pub encoding: ObjectEncoding,
    pub bytes: &'a [u8],
}

// The bytes of a header: none in version 4.
#[tactic(auto, using(crate::proofs::Headers::header_sizes))]
pub fn header_size(e: ObjectEncoding) -> usize
    ensures { result ≡ header_size (encoding_is e) }
{
    if e.five { 2 * e.width() } else { 0 }
}

impl Section<'_> {
    pub fn header_size(self) -> usize
        ensures { result ≡ header_size (encoding_is self.entry.encoding) }
    {
        header_size(self.encoding)
    }

    // The version and the padding, 5 and 0, behind the length of a header.
    fn version_true(self, at: usize) -> bool
        requires { at + 4 ≤ length self.bytes.now }
        ensures { result ≡ (number_at self.entry.encoding.big 2 self.entry.bytes.now at == dwarf5 && number_at self.entry.encoding.big 2 self.entry.bytes.now (at + 2) == 0) }
    {
        let big = self.encoding.big;
        octets::u16_at(big, self.bytes, at) == VERSION
            && octets::u16_at(big, self.bytes, at + 2) == 0
    }

    // A length of 8 bytes stands behind FFFFFFFF.
    #[tactic(auto, using(bundle::proofs::InitialLengths::is_wide, bundle::proofs::InitialLengths::is_narrow))]
    fn mark_true(self) -> bool
        ensures { result ≡ ((encoding_is self.entry.encoding).width == 4 || marked self.entry.encoding.big self.entry.bytes.now) }
    {
        !self.encoding.wide || initial_length::is_marked(self.encoding.big, self.bytes)
    }

    // In version 5: the length of the rest, 5, 0.
    #[tactic(auto, using(crate::proofs::Headers::header_tests))]
    fn header_true(self) -> bool
        ensures { result ≡ header_true (encoding_is self.entry.encoding) self.entry.bytes.now }
    {
        if !self.encoding.five {
            return true;
        }
        let field = self.encoding.field_size();
        let header = field + 4;
        let size = self.bytes.len();
        header <= size
            && self.mark_true()
            && self.encoding.stated_length(self.bytes) == (size - field) as u64
            && self.version_true(field)
    }

    // 8: the header is true and whole entries follow. How many there are.
    #[tactic(auto, using(crate::proofs::Headers::entry_tests))]
    pub fn check_entries(self) -> Result<usize, Refusal>
        ensures { told result ≡ mapped length (entries_of (encoding_is self.entry.encoding) self.entry.bytes.now) }
    {
        if !self.header_true() {
            return Err(Refusal::BadStrOffsets);
        }
        let rest = self.bytes.len() - self.header_size();
        let w = self.encoding.width();
        if rest % w == 0 {
            Ok(rest / w)
        } else {
            Err(Refusal::BadStrOffsets)
        }
    }

    // How many whole entries a section has.
    #[tactic(auto, using(crate::proofs::StrOffsets::sound, crate::proofs::Headers::count_is))]
    pub fn entry_count(self) -> usize
        ensures { result ≡ length (entries_in (encoding_is self.entry.encoding) self.entry.bytes.now) }
    {
        self.bytes.len().saturating_sub(self.header_size()) / self.encoding.width()
    }

    // Entry k, which the caller knows to be one of them.
    #[tactic(auto, using(crate::proofs::Headers::entry_reads), unfolding(bundle::specs::Encoded::encoding_is))]
    pub fn entry_at(self, k: usize) -> u64
        requires { k < length (entries_in (encoding_is self.encoding) self.bytes.now) }
        ensures { result ≡ slice_index (entries_in (encoding_is self.entry.encoding) self.entry.bytes.now) k }
    {
        let w = self.encoding.width();
        let at = self.header_size() + w * k;
        octets::number_at(self.encoding.big, w, self.bytes, at)
    }
}

// 9: the bytes from an offset up to a zero byte.
#[tactic(auto, using(crate::proofs::Headers::string_reads))]
pub fn string_at(s: &[u8], offset: u64) -> Option<Place>
    ensures { (n : ℕ) → place_check n result ≡ mapped (string_place offset) (string_at n s.now offset) }
{
    if s.len() as u64 <= offset {
        return None;
    }
    let start = offset as usize;
    let size = octets::first_zero(s, start)? - start;
    Some(Place { start, size })
}

// How many bytes stand up to the last zero byte: no string starts behind it.
pub fn last_zero(s: &[u8]) -> usize
    ensures { LastZero s.now result }
{
    s.iter().rposition(|b| *b == 0).map_or(0, |i| i + 1)
}
