// An object read up to its units: 4 to 10, its strings put into their store in work.
ghost use Rattle.std.specs.Prelude.{◌≡◌, true};
ghost use Rattle.numbers.specs.Sections.{cu_index_code, tu_index_code};
ghost use Rattle.filing.specs.State.{words_in, OnlyStore};
ghost use Rattle.package.specs.Input.{opened_whole, opened_tiled};
ghost use Rattle.filing.specs.ByObject.{
  ScanInside,
  str_offsets_in,
  OpenAnswered,
  IndexesFound,
  StringsAsked,
  StringsAnswered,
  InputAsked,
  InputAnswered,
};

use crate::input::InputObject;
use bundle::Scan;
use bundle::encoding::ObjectEncoding;
use numbers::limits::STRING_WORDS;
use numbers::refusals::Refusal;
use numbers::sections::{CU_INDEX, STR, STR_OFFSETS, TU_INDEX};
use strings::table::{Place, StrOffsets, StringTable};

// 8 and 9, where the object has str_offsets: count says how often. The table has the words that it has room for, at the front of their region: a bundle has
// far fewer entries than words.
// Table and memory are cut out of work here and in `add_parts` alike: one function for both got no proof, since the check follows a single cut back to work.
#[tactic(auto, using(crate::proofs::Stringing::strings_cases))]
pub fn add_object_strings(
    b: &[u8],
    o: StrOffsets,
    count: usize,
    t: &mut StringTable,
    work: &mut [u32],
) -> Result<(), Refusal>
    requires { StringsAsked b.now o t.old work.old }
    ensures put { StringsAnswered b.now o count t.old t.new work.old work.new result }
    ensures frame { OnlyStore (words_in b.now) work.old work.new }
{
    if count == 0 {
        return Ok(());
    }
    o.section(b).check_entries()?;
    let n = b.len() / 4;
    let store = kept::regions::STORE.of(n);
    let strings = kept::regions::STRINGS.of(n);
    let (_, behind) = work.split_at_mut(store.start);
    let (lent, _) = behind.split_at_mut(store.size);
    let (region, memory) = lent.split_at_mut(strings.size);
    let (table, _) = region.split_at_mut(STRING_WORDS * t.room);
    t.add_strings(o, b, table, memory)
}

// 10, of both indexes, and the object with them: that of the type units is judged where that of the compilation units passed.
fn indexed_input(b: &[u8], e: ObjectEncoding, scan: &Scan) -> Result<InputObject, Refusal>
    requires { ScanInside b.now scan.now cu_index_code × ScanInside b.now scan.now tu_index_code }
    ensures { IndexesFound b.now e scan.now result }
{
    let bare = InputObject {
        encoding: e,
        start: scan.start,
        size: scan.size,
        cu: None,
        tu: None,
    };
    let cu = crate::input::judge_index(bare.section(b, CU_INDEX), e, scan.count[CU_INDEX])?;
    let tu = crate::input::judge_index(bare.section(b, TU_INDEX), e, scan.count[TU_INDEX])?;
    Ok(InputObject { cu, tu, ..bare })
}

// Where an object's str_offsets and str lie.
fn str_offsets_in(e: ObjectEncoding, scan: &Scan) -> StrOffsets
    ensures { result ≡ str_offsets_in e scan.now }
{
    StrOffsets {
        encoding: e,
        offsets: Place {
            start: scan.start[STR_OFFSETS],
            size: scan.size[STR_OFFSETS],
        },
        strings: Place {
            start: scan.start[STR],
            size: scan.size[STR],
        },
    }
}

// 8, 9, 10: str_offsets is one piece.
fn open_whole(
    b: &[u8],
    e: ObjectEncoding,
    scan: &Scan,
    t: &mut StringTable,
    work: &mut [u32],
) -> Result<InputObject, Refusal>
    requires { InputAsked b.now scan.now t.old work.old }
    ensures read { OpenAnswered opened_whole b.now e scan.now t.old t.new work.old work.new result }
    ensures frame { OnlyStore (words_in b.now) work.old work.new }
{
    let o = str_offsets_in(e, scan);
    add_object_strings(b, o, scan.count[STR_OFFSETS], t, work)?;
    indexed_input(b, e, scan)
}

// 10, 34, 8, 9: a package of version 5, whose rows name the parts of str_offsets.
#[tactic(auto, using(kept::proofs::RegionLending::only_same))]
fn open_tiled(
    b: &[u8],
    e: ObjectEncoding,
    scan: &Scan,
    t: &mut StringTable,
    work: &mut [u32],
) -> Result<InputObject, Refusal>
    requires { InputAsked b.now scan.now t.old work.old × (e.five ≡ true) }
    ensures read { OpenAnswered opened_tiled b.now e scan.now t.old t.new work.old work.new result }
    ensures frame { OnlyStore (words_in b.now) work.old work.new }
{
    let x = indexed_input(b, e, scan)?;
    let good = crate::parts::judge_parts(b, &x, work)?;
    let o = str_offsets_in(e, scan);
    crate::parts::add_parts(b, o, good, t, work)?;
    Ok(x)
}

// 4 to 10 and 34, of the object with a word and sections that were scanned; first is the first object's word. Callers have the sections from the bundle.
pub fn read_input(
    b: &[u8],
    big: bool,
    first: u32,
    word: u32,
    scan: &Scan,
    t: &mut StringTable,
    work: &mut [u32],
) -> Result<InputObject, Refusal>
    requires { InputAsked b.now scan.now t.old work.old }
    ensures read { InputAnswered b.now big first word scan.now t.old t.new work.old work.new result }
    ensures frame { OnlyStore (words_in b.now) work.old work.new }
{
    let e = crate::input::judge_object(big, first, word, scan)?;
    if crate::editions::is_packed(e.five, scan.count[CU_INDEX], scan.count[TU_INDEX]) {
        open_tiled(b, e, scan, t, work)
    } else {
        open_whole(b, e, scan, t, work)
    }
}
