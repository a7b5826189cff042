// The package written front to back.
ghost use Rattle.std.specs.Prelude.{◌≡◌, ◌*◌, ◌/◌, ◌≤◌, length, slice_index, slice_index_or};
ghost use Rattle.numbers.specs.Limits.{bundle_limit, work_for_word};

use crate::joining::SharedSections;
use bundle::encoding::ObjectEncoding;
use kept::Table;
use kept::records::Records;
use kept::regions::{COMPILATION, TYPE};
use kept::slots::{Slots, TableSlots};
use kept::state::InProgress;
use kept::writing::IndexForm;
use numbers::sections::{CODES, CU_INDEX, INFO, STR, TU_INDEX, TYPES};

// The bytes of a word, and of head and object word.
const WORD: usize = 4;

const FRONT: usize = 2 * WORD;

// What is to be written: the encoding of all objects, what is known of them, the sizes of all sections by code, and where their bytes are. Work has words
// enough for the bundle, and the region of the strings has enough for their table.
#[derive(Clone, Copy)]
pub struct Package<'a> {
    pub encoding: ObjectEncoding,
    pub state: InProgress,
    pub sizes: [usize; CODES],
    pub bundle: &'a [u8],
    pub work: &'a [u32],
    pub ghost limit: { length bundle.now ≤ bundle_limit },
    pub ghost room: { work_for_word * (length bundle.now / 4) ≤ length work.now },
    pub ghost few: { state.strings.room ≤ length bundle.now / 4 },
}

impl Package<'_> {
    ghost use Rattle.std.specs.Prelude.{◌+◌, slice_index_or, List, ℕ};
    ghost use Rattle.octets.specs.Octets.{placed};
    ghost use Rattle.kept.specs.Regions.{table_words};
    ghost use Rattle.finish.specs.Sections.{framed_size};
    ghost use Rattle.finish.specs.Ready.{
      form_of,
      words_of,
      IndexHeld,
      IndexWritable,
      SectionWritable,
      SectionPut,
      SharedOf,
      FrameWritable,
      FramePut,
      SectionsWritable,
      SectionsPut,
      PackageWritable,
      PackagePut,
    };

    // The words of the table of the strings.
    fn strings(&self) -> &[u32]
        ensures { result.now ≡ table_words self.now.work.now (words_of self.now) self.now.state.strings.room }
    {
        kept::regions::table_words(self.work, self.bundle.len() / WORD, self.state.strings.room)
    }

    // A table's index, nothing without rows.
    fn write_index(&self, table: usize, t: Table, out: &mut [u8], at: usize)
        requires { IndexWritable (form_of self.now.encoding table t) (words_of self.now) self.now.state.units.count self.now.work.now (length out.old) at }
        ensures { (s : List ℕ) → IndexHeld (form_of self.now.encoding table t) (words_of self.now) self.now.state.units.count self.now.work.now s → out.new ≡ placed out.old at s }
    {
        if t.rows == 0 {
            return;
        }
        let has = t.has;
        let form = IndexForm {
            big: self.encoding.big,
            five: self.encoding.five,
            table,
            rows: t.rows,
            has,
        };
        let slots = TableSlots {
            words: self.bundle.len() / WORD,
            table,
            units: self.state.units.count,
            count: kept::slots::slots_for(t.rows),
        };
        form.write_index(Slots::of_work(self.work, slots), out, at);
    }

    // What is joined of all objects.
    #[tactic(auto, unfolding(crate::specs::Joining::remaps, crate::specs::Joining::table_lent))]
    fn shared(&self) -> SharedSections<'_>
        ensures { SharedOf self.now result }
    {
        SharedSections {
            encoding: self.encoding,
            bundle: self.bundle,
            table: Some(self.strings()),
        }
    }

    // The bytes of one section of the package, by its code.
    fn write_section(&self, code: usize, out: &mut [u8], at: usize)
        requires { SectionWritable code self.now (length out.old) at }
        ensures { SectionPut code self.now at out.old out.new }
    {
        let units = self.state.units;
        match code {
            INFO | TYPES => {
                let words = self.bundle.len() / WORD;
                Records::of_work(self.work, words, units.count).copy_units(
                    self.bundle,
                    code,
                    out,
                    at,
                );
            }
            STR => {
                let count = self.state.strings.count;
                strings::sections::write_strings(self.bundle, self.strings(), count, out, at);
            }
            CU_INDEX => self.write_index(COMPILATION, units.cu, out, at),
            TU_INDEX => self.write_index(TYPE, units.tu, out, at),
            _ => self.shared().write(code, out, at),
        }
    }

    // One section with its word, where it isn't empty. Returns the place that follows it.
    fn write_framed(&self, code: usize, out: &mut [u8], at: usize) -> usize
        requires { FrameWritable code (slice_index self.now.sizes code) self.now (length out.old) at }
        ensures next { result ≡ at + framed_size (slice_index self.now.sizes code) }
        ensures output { FramePut code (slice_index self.now.sizes code) self.now at out.old out.new }
    {
        let size = self.sizes[code];
        if size == 0 {
            return at;
        }
        let start = at + WORD;
        let next = start + bundle::filled_up(size);
        bundle::put_section_word(code as u32, size, out, at);
        self.write_section(code, out, start);
        next
    }

    // All sections following head and object word, in order of code. Returns the place that follows them.
    fn write_sections(&self, out: &mut [u8]) -> usize
        requires { SectionsWritable self.now out.old }
        ensures { SectionsPut self.now out.old out.new result }
    {
        let mut at = FRONT;
        for code in 1..CODES {
            at = self.write_framed(code, out, at);
        }
        at
    }

    // The package, into an output that is zero and long enough.
    pub fn write(&self, word: u32, out: &mut [u8])
        requires { PackageWritable self.now out.old }
        ensures { PackagePut self.now word out.old out.new }
    {
        bundle::put_head(self.encoding.big, out);
        bundle::put_object(word, out, WORD);
        let at = self.write_sections(out);
        bundle::put_end(out, at);
    }
}
