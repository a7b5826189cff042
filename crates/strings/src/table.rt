// The table of kept strings, in words that are lent of the work area, STRING_WORDS for each string and entry that it has room for and no more: three
// words for each string, which say where it lies in the bundle, its length and its offset in the package's str; behind these rows the links of
// their index; then for each entry the place of its string, in order, so that str_offsets is written without a search; and the roots of the index.
// A string that is known is kept once; a new one goes to the end. While an object's strings are put, words lent for its str remember by a string's
// start where it stands, so that a string named often is read once.
ghost use Rattle.std.specs.Prelude.{◌≡◌, true, false, List, [], ◌∷◌, ℕ, ◌+◌, ◌-◌, ◌*◌, ◌≤◌, ◌<◌, ◌^◌, length, get_or};
ghost use Rattle.octets.specs.Octets.{part, placed, zeros};
ghost use Rattle.octets.specs.Checked.{mapped};
ghost use Rattle.numbers.specs.Refusals.{no_string};
ghost use Rattle.strings.specs.Strings.{string_at};
ghost use Rattle.strings.specs.Answers.{place_check, string_place};
ghost use Rattle.strings.specs.Kept.{
  bytes_at,
  Inside,
  Kept,
  PutIs,
  PutSmall,
  PutsNew,
  NewAt,
  places_from,
  row_place,
  RowAddable,
  row_added,
  with_entry,
};
ghost use Rattle.strings.specs.Remembered.{LastZero, Putting};
ghost use Rattle.strings.specs.Objects.{
  AddedOf,
  Roomy,
  Insertable,
  Addable,
  AllAddable,
  AllPutTo,
  PutsString,
};

use crate::entries;
use crate::entries::Section;
use bundle::encoding::ObjectEncoding;
use numbers::limits::{SECTION_LIMIT, STRING_WORDS};
use numbers::refusals::Refusal;

// The words of a row, and where its length and its offset in str stand in it. No struct, since memory is lent as words and there is no heap.
pub(crate) const ROW_WORDS: usize = 3;

const SIZE: usize = 1;

pub(crate) const OFFSET: usize = 2;

// The links of a row. They stand behind all rows, the places of entries behind all links, and the roots behind the places.
pub(crate) const LINK_WORDS: usize = 2;

const PLACES_FROM: usize = ROW_WORDS + LINK_WORDS;

pub(crate) const ROOTS_FROM: usize = PLACES_FROM + 1;

// A part of the bytes of a bundle or of a package.
#[derive(Clone, Copy)]
pub struct Place {
    pub start: usize,
    pub size: usize,
}

impl Place {
    // The bytes there.
    #[tactic(auto, using(octets::proofs::Parts::part_cut), unfolding(crate::specs::Kept::bytes_at))]
    pub fn of(self, b: &[u8]) -> &[u8]
        requires { Inside b.now self }
        ensures { result.now ≡ bytes_at b.now self }
    {
        &b[self.start..self.start + self.size]
    }
}

// An object's str_offsets and str. The bundle `b` is no field: the table's kept strings lie in the same bundle, so that clauses and code need its bytes apart
// from an object's.
#[derive(Clone, Copy)]
pub struct StrOffsets {
    pub encoding: ObjectEncoding,
    pub offsets: Place,
    pub strings: Place,
}

impl StrOffsets {
    // The bytes of the first.
    pub fn section(self, b: &[u8]) -> Section<'_>
        requires { Inside b.now self.offsets }
        ensures encoding { result.encoding ≡ self.encoding }
        ensures bytes { result.bytes.now ≡ bytes_at b.now self.offsets }
    {
        Section {
            encoding: self.encoding,
            bytes: self.offsets.of(b),
        }
    }

    // Before strings are put: nothing is remembered of str. Answers where its last string ends.
    pub(crate) fn begin(self, b: &[u8], memory: &mut [u32]) -> usize
        requires { Inside b.now self.strings × (self.strings.size ≤ length memory.old) }
        ensures ended { LastZero (bytes_at b.now self.strings) result }
        ensures forgotten { memory.new ≡ placed memory.old 0 (zeros self.strings.size) }
    {
        forget(memory, self.strings.size);
        entries::last_zero(self.strings.of(b))
    }
}

// How many strings are kept, how long their str section is, how many entries named them, and whether the section would be above 8,388,607
// bytes (19). From then on nothing is stored: the package is refused, whatever the new offsets are, and the sum of lengths stays within 32 bits.
// `over` stays a flag: 19 is due only once all objects are read, and until then the first three say what is stored, whether it is set or not.
// `room` says how many strings, and how many entries, there is room for: the table's words are STRING_WORDS for each, and no more, so that all that is used
// stands close together. Whoever lends the words cuts them by it.
#[derive(Clone, Copy)]
pub struct StringTable {
    pub count: usize,
    pub size: usize,
    pub entries: usize,
    pub over: bool,
    pub room: usize,
}

// Where the string of row i lies in the bundle.
pub fn row_place(table: &[u32], i: usize) -> Place
    requires { 3 * i + 3 ≤ length table.now }
    ensures { result ≡ row_place table.now i }
{
    Place {
        start: table[ROW_WORDS * i] as usize,
        size: table[ROW_WORDS * i + SIZE] as usize,
    }
}

#[tactic(auto, using(octets::proofs::Placed::placed_three))]
fn set_row(table: &mut [u32], i: usize, p: Place, offset: usize)
    requires { (3 * i + 3 ≤ length table.old) × (p.start < 2 ^ 32) × (p.size < 2 ^ 32) × (offset < 2 ^ 32) }
    ensures { table.new ≡ placed table.old (3 * i) (p.start ∷ p.size ∷ offset ∷ []) }
{
    let at = ROW_WORDS * i;
    table[at] = p.start as u32;
    table[at + SIZE] = p.size as u32;
    table[at + OFFSET] = offset as u32;
}

// Where the places of entries start, in so many words.
#[tactic(auto, unfolding(crate::specs::Kept::places_from))]
pub fn places_from(words: usize) -> usize
    ensures { result ≡ places_from words }
{
    PLACES_FROM * (words / STRING_WORDS)
}

// The string at an offset of an object's str, by its place in the bundle.
#[tactic(auto, using(crate::proofs::Places::none_moved, crate::proofs::Places::place_moved))]
pub fn string_in(b: &[u8], strings: Place, offset: usize) -> Option<Place>
    requires { Inside b.now strings }
    ensures { place_check no_string result ≡ mapped (string_place (strings.start + offset)) (string_at no_string (bytes_at b.now strings) offset) }
{
    let found = entries::string_at(strings.of(b), offset as u64)?;
    Some(Place {
        start: strings.start + found.start,
        size: found.size,
    })
}

// The table and the memory stay two parameters: put in a struct, the halves of a `split_at_mut` come back to the caller without what was written.
impl StringTable {
    // A row behind the others, which leads nowhere yet, and its number in the word where the search for its string ended.
    #[tactic(auto, using(crate::proofs::Keeping::row_stored), unfolding(crate::specs::Indexed::room_of))]
    fn add_row(self, table: &mut [u32], slot: usize, p: Place)
        requires { RowAddable table.old slot self p }
        ensures { table.new ≡ row_added table.old slot self p }
    {
        let i = self.count;
        let links = ROW_WORDS * (table.len() / STRING_WORDS) + LINK_WORDS * i;
        set_row(table, i, p, self.size);
        octets::set_word(table, links, 0);
        octets::set_word(table, links + 1, 0);
        octets::set_word(table, slot, i + 1);
    }

    // The place of one entry more.
    #[tactic(auto, unfolding(crate::specs::Kept::places_from))]
    fn note_place(&mut self, table: &mut [u32], place: usize)
        requires { Roomy (length table.old) self.old × (place < 2 ^ 32) }
        ensures is { self.new ≡ with_entry self.old }
        ensures noted { table.new ≡ placed table.old (places_from (length table.old) + self.old.entries) (place ∷ []) }
    {
        let at = places_from(table.len()) + self.entries;
        octets::set_word(table, at, place);
        self.entries += 1;
    }

    // Puts a string that is not kept yet, where the search for it ended. Answers its place in str; none where that is over.
    fn insert_string(&mut self, b: &[u8], p: Place, slot: usize, table: &mut [u32]) -> Option<usize>
        requires { (self.old.over ≡ false) × Insertable b.now p table.old self.old × ((used : List (List ℕ)) × Kept b.now table.old self.old used × NewAt b.now p table.old used slot) }
        ensures puts_new { PutsNew b.now p slot table.old self.old table.new self.new result }
        ensures put_small { PutSmall self.old self.new result }
    {
        let place = self.size;
        if SECTION_LIMIT - place <= p.size {
            self.over = true;
            return None;
        }
        self.add_row(table, slot, p);
        self.count += 1;
        self.size += p.size + 1;
        self.note_place(table, place);
        Some(place)
    }

    // Puts a string of the bundle: where no equal one is kept, its row goes behind the others; and its place is that of one entry more. The caller
    // has room for both. Answers its place in str; none where that is over.
    pub fn get_or_insert(&mut self, b: &[u8], p: Place, table: &mut [u32]) -> Option<usize>
        requires { Insertable b.now p table.old self.old × ((used : List (List ℕ)) × Kept b.now table.old self.old used) }
        ensures by_index { (used : List (List ℕ)) → Kept b.now table.old self.old used → PutIs b.now table.new used (bytes_at b.now p) self.new result }
        ensures put_small { PutSmall self.old self.new result }
    {
        if self.over {
            return None;
        }
        match crate::seek::seek_string(b, table, self.count, p) {
            Ok(i) => {
                let place = table[ROW_WORDS * i + OFFSET] as usize;
                self.note_place(table, place);
                Some(place)
            }
            Err(slot) => self.insert_string(b, p, slot, table),
        }
    }

    // Puts the string at an offset of an object's str. It is sought once for each offset: its place is remembered. Nothing is read for a table that is
    // over. The caller knows that a string starts there, and has room for one more row.
    // A word of memory is 0 where nothing is known, and otherwise the place and 1 more: the work area has words, and an Option takes more than one.
    fn add_string(
        &mut self,
        b: &[u8],
        strings: Place,
        offset: usize,
        table: &mut [u32],
        memory: &mut [u32],
    )
        requires { Addable b.now strings offset (length table.old) (length memory.old) self.old × ((used : List (List ℕ)) × Putting b.now strings table.old memory.old self.old used) }
        ensures puts_string { PutsString b.now strings offset table.old memory.old self.old table.new memory.new self.new }
        ensures entries_bound { self.new.entries ≤ self.old.entries + 1 }
    {
        if self.over {
            return;
        }
        let known = memory[offset] as usize;
        if known != 0 {
            self.note_place(table, known - 1);
        } else if let Some(p) = string_in(b, strings, offset) {
            if let Some(place) = self.get_or_insert(b, p, table) {
                octets::set_word(memory, offset, place + 1);
            }
        }
    }

    // Puts the strings of all entries. ended says where the last string of str ends. What is remembered of str may come from other entries.
    #[tactic(auto, using(crate::proofs::Adding::section_entries, crate::proofs::Adding::adding_none, crate::proofs::Adding::adding_all))]
    pub fn add_entries(
        &mut self,
        o: StrOffsets,
        b: &[u8],
        ended: usize,
        table: &mut [u32],
        memory: &mut [u32],
    ) -> Result<(), Refusal>
        requires { AllAddable b.now o (length table.old) (length memory.old) self.old × LastZero (bytes_at b.now o.strings) ended × ((used : List (List ℕ)) × Putting b.now o.strings table.old memory.old self.old used) }
        ensures { AllPutTo b.now o table.old memory.old self.old table.new memory.new self.new result }
    {
        let section = o.section(b);
        for k in 0..section.entry_count() {
            let offset = section.entry_at(k);
            if ended as u64 <= offset {
                return Err(Refusal::NoString);
            }
            self.add_string(b, o.strings, offset as usize, table, memory);
        }
        Ok(())
    }

    // Puts the strings that an object's entries name, whose section check_entries let pass. The table has room for a row for each entry, and the memory
    // a word for each byte of str; what the memory holds after the call is not promised.
    #[tactic(auto, using(crate::proofs::Remembering::begun))]
    pub fn add_strings(
        &mut self,
        o: StrOffsets,
        b: &[u8],
        table: &mut [u32],
        memory: &mut [u32],
    ) -> Result<(), Refusal>
        requires { AllAddable b.now o (length table.old) (length memory.old) self.old × ((used : List (List ℕ)) × Kept b.now table.old self.old used) }
        ensures { (used : List (List ℕ)) → Kept b.now table.old self.old used → AddedOf b.now o table.new used self.new result }
    {
        let ended = o.begin(b, memory);
        self.add_entries(o, b, ended, table, memory)
    }
}

// Forgets what was remembered of the first n offsets.
#[tactic(auto, using(crate::proofs::Remembering::cleared), unfolding(octets::specs::Octets::zeros))]
pub fn forget(memory: &mut [u32], n: usize)
    requires { n ≤ length memory.old }
    ensures { memory.new ≡ placed memory.old 0 (zeros n) }
{
    memory[..n].fill(0);
}
