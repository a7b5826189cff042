// The str_offsets and str sections of the package, by the table of kept strings.
ghost use Rattle.std.specs.Prelude.{◌≡◌, List, ℕ, ◌+◌, ◌*◌, ◌≤◌, length};
ghost use Rattle.octets.specs.Octets.{placed};
ghost use Rattle.bundle.specs.Encoded.{encoding_is};
ghost use Rattle.strings.specs.Strings.{header_size, ended, str_of};
ghost use Rattle.strings.specs.Headed.{piece_with};
ghost use Rattle.strings.specs.Kept.{bytes_at, Inside, Held};

use crate::entries::Section;
use crate::table::{OFFSET, Place, ROW_WORDS, row_place};

impl Section<'_> {
    // Writes a piece with other numbers for its entries: the header as it was, and the numbers behind it.
    #[tactic(auto, using(crate::proofs::StrOffsets::sound, crate::proofs::HeadedWriting::piece_put), unfolding(bundle::specs::Encoded::encoding_is))]
    pub fn write_piece(self, numbers: &[u32], d: &mut [u8], at: usize)
        requires { (header_size (encoding_is self.encoding) ≤ length self.bytes.now) × (at + header_size (encoding_is self.encoding) + (encoding_is self.encoding).width * length numbers.now ≤ length d.old) }
        ensures { d.new ≡ placed d.old at (piece_with (encoding_is self.entry.encoding) self.entry.bytes.now numbers.now) }
    {
        let e = self.encoding;
        let h = self.header_size();
        octets::put_bytes(d, at, &self.bytes[..h]);
        octets::put_numbers(e.big, e.width(), numbers, d, at + h);
    }
}

// A string as it is put, with a zero.
#[tactic(auto, using(crate::proofs::Places::length_bytes_at, crate::proofs::Writing::ended_is))]
fn put_string(b: &[u8], p: Place, d: &mut [u8], at: usize)
    requires { Inside b.now p × (at + p.size + 1 ≤ length d.old) }
    ensures { d.new ≡ placed d.old at (ended (bytes_at b.now p)) }
{
    octets::put_bytes(d, at, p.of(b));
    octets::put_byte(d, at + p.size, 0);
}

// Writes str: the kept strings in order of first use.
#[tactic(auto, using(crate::proofs::Writing::written_all))]
pub fn write_strings(b: &[u8], table: &[u32], count: usize, d: &mut [u8], at: usize)
    requires { (ts : List (List ℕ)) × Held b.now table.now count ts × (at + length (str_of ts) ≤ length d.old) }
    ensures { (ts : List (List ℕ)) → Held b.now table.now count ts → d.new ≡ placed d.old at (str_of ts) }
{
    for i in 0..count {
        let offset = table[ROW_WORDS * i + OFFSET] as usize;
        put_string(b, row_place(table, i), d, at + offset);
    }
}
