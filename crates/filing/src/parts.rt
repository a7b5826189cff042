// A package of version 5: 34, that the parts which rows name tile str_offsets, then 8 and 9 part by part.
ghost use Rattle.std.specs.Prelude.{◌≡◌, ◌<◌, ◌^◌, length, slice_index};
ghost use Rattle.numbers.specs.Sections.{str_offsets_code};
ghost use Rattle.kept.specs.Regions.{codes_region, Only};
ghost use Rattle.filing.specs.State.{words_in, OnlyStore};
ghost use Rattle.filing.specs.ByPlace.{WorkFor};
ghost use Rattle.filing.specs.Tiled.{
  PartsAsked,
  IndexMarked,
  BothMarked,
  PartsAnswered,
  offsets_before,
  PartsPutAsked,
  PartsPut,
};

use crate::input::{InputObject, held};
use index::reading::Index;
use numbers::limits::STRING_WORDS;
use numbers::refusals::Refusal;
use numbers::sections::{CU_INDEX, STR_OFFSETS, TU_INDEX};
use strings::table::{Place, StrOffsets, StringTable};

// Marks the parts that the rows of an index name, where there is one. False where they clash.
#[tactic(auto, using(crate::proofs::Tiling::marked_some, crate::proofs::Tiling::marked_none))]
fn mark_index(index: Option<Index>, marks: &mut [u32]) -> bool
    requires { length marks.old < 2 ^ 32 }
    ensures { IndexMarked index.entry marks.old marks.new result }
{
    match index {
        Some(index) => places::tiles::mark_rows(&index, marks),
        None => true,
    }
}

// Marks the parts that both indexes name.
#[tactic(auto, using(crate::proofs::Tiling::both_second))]
fn mark_indexes(b: &[u8], x: &InputObject, marks: &mut [u32]) -> bool
    requires { PartsAsked b.now x.now × (length marks.old < 2 ^ 32) }
    ensures { BothMarked b.now x.now marks.old marks.new result }
{
    let big = x.encoding.big;
    mark_index(held(big, x.section(b, TU_INDEX), x.tu), marks)
        && mark_index(held(big, x.section(b, CU_INDEX), x.cu), marks)
}

// By marks, a word for each byte of str_offsets.
fn tile_parts(b: &[u8], x: &InputObject, marks: &mut [u32]) -> Result<usize, Refusal>
    requires { PartsAsked b.now x.now × (length marks.old ≡ slice_index x.now.size str_offsets_code) }
    ensures { PartsAnswered b.now x.now result }
{
    marks.fill(0);
    if !mark_indexes(b, x, marks) || !places::tiles::tiled(marks) {
        return Err(Refusal::BadParts);
    }
    let offsets = x.section(b, STR_OFFSETS);
    Ok(places::tiles::good_parts(x.encoding, offsets, marks))
}

// 34, and where the first part starts that 8 refuses. The marks stand where the codes of an abbreviation table do, which count while units are filed.
pub fn judge_parts(b: &[u8], x: &InputObject, work: &mut [u32]) -> Result<usize, Refusal>
    requires { PartsAsked b.now x.now × WorkFor b.now work.old }
    ensures parts_answered { PartsAnswered b.now x.now result }
    ensures frame { Only codes_region (words_in b.now) work.old work.new }
{
    let from = kept::regions::CODES.of(b.len() / 4).start;
    let to = from + x.size[STR_OFFSETS];
    tile_parts(b, x, &mut work[from..to])
}

// The section up to a place.
fn offsets_before(o: StrOffsets, good: usize) -> StrOffsets
    ensures { result ≡ offsets_before o good }
{
    let offsets = Place {
        size: good,
        ..o.offsets
    };
    StrOffsets { offsets, ..o }
}

// 9 of the parts before the first one that 8 refuses, then 8. The caller knows that parts tile the section.
pub fn add_parts(
    b: &[u8],
    o: StrOffsets,
    good: usize,
    t: &mut StringTable,
    work: &mut [u32],
) -> Result<(), Refusal>
    requires { PartsPutAsked b.now o good t.old work.old }
    ensures put { PartsPut b.now o good t.old t.new work.old work.new result }
    ensures frame { OnlyStore (words_in b.now) work.old work.new }
{
    let n = b.len() / 4;
    let store = kept::regions::STORE.of(n);
    let strings = kept::regions::STRINGS.of(n);
    let (_, behind) = work.split_at_mut(store.start);
    let (lent, _) = behind.split_at_mut(store.size);
    let (region, memory) = lent.split_at_mut(strings.size);
    let (table, _) = region.split_at_mut(STRING_WORDS * t.room);
    t.add_pieces(offsets_before(o, good), b, table, memory)?;
    if good < o.offsets.size {
        return Err(Refusal::BadStrOffsets);
    }
    Ok(())
}
