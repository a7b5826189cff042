// A str_offsets section piece by piece. In version 5 each piece has its own header, which states how long it is; in version 4 the section is one piece.
ghost use Rattle.std.specs.Prelude.{◌≡◌, List, ℕ, ◌-◌, ◌≤◌, length};
ghost use Rattle.bundle.specs.Encoded.{encoding_is};
ghost use Rattle.strings.specs.Strings.{header_size};
ghost use Rattle.strings.specs.Headed.{
  piece_size,
  PiecesPutAsked,
  PiecesPut,
  PiecesAsked,
  PiecesKept,
  PiecesWritable,
  PiecesWritten,
};

use crate::entries::Section;
use crate::table::{Place, StrOffsets, StringTable};
use numbers::refusals::Refusal;

impl Section<'_> {
    // How long the piece at the front of a section is. The caller knows that its header is true.
    #[tactic(auto, using(crate::proofs::Headed::sizes))]
    pub fn piece_size(self) -> usize
        requires { (header_size (encoding_is self.encoding) ≤ length self.bytes.now) × (piece_size (encoding_is self.encoding) self.bytes.now ≤ length self.bytes.now) }
        ensures { result ≡ piece_size (encoding_is self.entry.encoding) self.entry.bytes.now }
    {
        let e = self.encoding;
        if e.five {
            e.field_size() + e.stated_length(self.bytes) as usize
        } else {
            self.bytes.len()
        }
    }

    // Writes a section with other numbers for its entries, piece by piece: each header as it was, and the next numbers behind it. Says how many entries the section has.
    #[tactic(auto, using(crate::proofs::HeadedWriting::pieces_written))]
    pub fn write_pieces(self, numbers: &[u32], d: &mut [u8], at: usize) -> usize
        requires { PiecesWritable (encoding_is self.encoding) self.bytes.now numbers.now (length d.old) at }
        ensures { PiecesWritten (encoding_is self.entry.encoding) self.entry.bytes.now numbers.now at d.old d.new result }
    {
        let encoding = self.encoding;
        let mut from = 0;
        let mut first = 0;
        // Each piece states how far the next one is: no range has these steps, and an iterator's `next` would hold the same step, with laws of its own.
        while from < self.bytes.len() {
            let bytes = &self.bytes[from..];
            let size = Section { encoding, bytes }.piece_size();
            let end = from + size;
            let bytes = &self.bytes[from..end];
            let piece = Section { encoding, bytes };
            let count = piece.entry_count();
            let last = first + count;
            piece.write_piece(&numbers[first..last], d, at + from);
            from = end;
            first = last;
        }
        first
    }
}

impl StringTable {
    // Puts the strings of all pieces. ended says where the last string of str ends.
    #[tactic(auto, using(crate::proofs::Headed::pieces_none))]
    fn put_pieces(
        &mut self,
        o: StrOffsets,
        b: &[u8],
        ended: usize,
        table: &mut [u32],
        memory: &mut [u32],
    ) -> Result<(), Refusal>
        requires { PiecesPutAsked b.now o ended table.old memory.old self.old }
        ensures { PiecesPut b.now o table.old memory.old self.old table.new self.new result }
    {
        let encoding = o.encoding;
        let mut at = o.offsets.start;
        let end = at + o.offsets.size;
        // As in `write_pieces`: no range has these steps, and an iterator's `next` would hold the same step.
        while at < end {
            let bytes = &b[at..end];
            let size = Section { encoding, bytes }.piece_size();
            let offsets = Place { start: at, size };
            self.add_entries(StrOffsets { offsets, ..o }, b, ended, table, memory)?;
            at += size;
        }
        Ok(())
    }

    // Puts the strings that the entries of all pieces name, each of which check_entries let pass. What is remembered of str serves all of them. The table has room
    // for a row for each entry, and the memory a word for each byte of str; what the memory holds after the call is not promised.
    // Beside `add_strings`, and not one with it: here true headers are asked for (`HeadedOf`), and room by bytes, where `add_strings` asks for no header and
    // for room by entries; and `add_strings` takes all behind the first header for entries, so that it can't promise the strings of more pieces.
    #[tactic(auto, using(crate::proofs::Remembering::begun))]
    pub fn add_pieces(
        &mut self,
        o: StrOffsets,
        b: &[u8],
        table: &mut [u32],
        memory: &mut [u32],
    ) -> Result<(), Refusal>
        requires { PiecesAsked b.now o table.old memory.old self.old }
        ensures { PiecesKept b.now o table.old self.old table.new self.new result }
    {
        let ended = o.begin(b, memory);
        self.put_pieces(o, b, ended, table, memory)
    }
}
