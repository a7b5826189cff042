// Packing: any bytes in, a package or a number out.
#![tactic(auto)]

pub mod answering;
pub mod clear;
pub mod objects;
mod zeroing;

ghost use Rattle.std.specs.Prelude.{◌≡◌, length};
ghost use Rattle.octets.specs.Octets.{zeros};
ghost use Rattle.package.specs.Pack.{packed};
ghost use Rattle.answers.specs.Answers.{output_of};
ghost use Rattle.answers.specs.Outcome.{outcome_of, outcome_as};
ghost use Rattle.packer.specs.Small.{packed_small};
ghost use Rattle.packer.specs.Counted.{packing_of, packing_as};

use answers::Unwritten;
use kept::state::Skipped;
use numbers::limits::{BUNDLE_LIMIT, SMALL_BUNDLE, SMALL_WORK, WORK_FOR_WORD};
use numbers::refusals::Refusal;

// A package that was made: how long it is, and how many type units were skipped.
#[derive(Clone, Copy)]
pub struct Made {
    pub length: usize,
    pub skipped: Skipped,
}

// Over an output that is cleared, which no type says since the first write ends it; work may hold anything, and is not cleared after it.
fn pack_cleared(b: &[u8], work: &mut [u32], out: &mut [u8]) -> Result<Made, Unwritten>
    requires { out.old ≡ zeros (length out.old) }
    ensures answer { packing_as result ≡ packing_of b.now (packed b.now (length work.old) (length out.old)) }
    ensures output { out.new ≡ output_of (packed b.now (length work.old) (length out.old)) (length out.old) }
{
    if !bundle::length_good(BUNDLE_LIMIT, b) {
        return Err(Unwritten::Refused(Refusal::BadLength));
    }
    if work.len() < WORK_FOR_WORD * (b.len() / 4) {
        return Err(Unwritten::Refused(Refusal::WorkShort));
    }
    let big = bundle::check_words(b)?;
    let room = objects::string_room(b);
    clear::clear_slots(b.len() / 4, room, work);
    let st = objects::add_input_objects(b, big, room, work)?;
    let length = finish::whole::finish(b, big, st, work, out)?;
    Ok(Made {
        length,
        skipped: st.skipped,
    })
}

// Whatever the three hold: the package, 18 with the length needed, or a refusal; after it the output is the package and zeros, or
// zeros only, and work is zeros.
pub fn pack_counted(b: &[u8], work: &mut [u32], out: &mut [u8]) -> Result<Made, Unwritten>
    ensures answer { packing_as result ≡ packing_of b.now (packed b.now (length work.old) (length out.old)) }
    ensures output { out.new ≡ output_of (packed b.now (length work.old) (length out.old)) (length out.old) }
    ensures work { work.new ≡ zeros (length work.old) }
{
    crate::zeroing::clear_bytes(out); // of what was lent
    let answer = pack_cleared(b, work, out);
    crate::zeroing::clear_lent(work); // of what was filed
    answer
}

// The same for callers that want no counts.
pub fn pack(b: &[u8], work: &mut [u32], out: &mut [u8]) -> Result<usize, Unwritten>
    ensures answer { outcome_as result ≡ outcome_of (packed b.now (length work.old) (length out.old)) }
    ensures output { out.new ≡ output_of (packed b.now (length work.old) (length out.old)) (length out.old) }
    ensures work { work.new ≡ zeros (length work.old) }
{
    Ok(pack_counted(b, work, out)?.length)
}

// The small packer: a lower limit, and as much work as that needs, which its type asks for.
pub fn pack_small_counted(
    b: &[u8],
    work: &mut [u32; SMALL_WORK],
    out: &mut [u8],
) -> Result<Made, Unwritten>
    ensures answer { packing_as result ≡ packing_of b.now (packed_small b.now (length out.old)) }
    ensures output { out.new ≡ output_of (packed_small b.now (length out.old)) (length out.old) }
    ensures work { work.new ≡ zeros (length work.old) }
{
    if !bundle::length_good(SMALL_BUNDLE, b) {
        out.fill(0);
        work.fill(0);
        return Err(Unwritten::Refused(Refusal::BadLength));
    }
    pack_counted(b, work, out)
}

// The same for callers that want no counts.
pub fn pack_small(
    b: &[u8],
    work: &mut [u32; SMALL_WORK],
    out: &mut [u8],
) -> Result<usize, Unwritten>
    ensures answer { outcome_as result ≡ outcome_of (packed_small b.now (length out.old)) }
    ensures output { out.new ≡ output_of (packed_small b.now (length out.old)) (length out.old) }
    ensures work { work.new ≡ zeros (length work.old) }
{
    Ok(pack_small_counted(b, work, out)?.length)
}
