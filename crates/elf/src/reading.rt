// An ELF file of either class read into a bundle: 31, 32, 33, 19 and 18, in this order.
ghost use Rattle.std.specs.Prelude.{◌≡◌, length};
ghost use Rattle.octets.specs.Octets.{zeros};
ghost use Rattle.answers.specs.Answers.{output_of, written_of, answered};
ghost use Rattle.answers.specs.Written.{written_as};
ghost use Rattle.elf.specs.Reader.{elf_read, bundle_from, bundle_of_word};
ghost use Rattle.elf.specs.Elf32.{elf32_read};
ghost use Rattle.elf.specs.Held.{file_is};

use crate::accepted::Accepted;
use answers::{Unwritten, Written};
use bundle::FRAME;
use numbers::limits::PACKAGE_LIMIT;
use numbers::refusals::Refusal;

// What the sections may take of the 117,440,512 bytes.
const ROOM_LIMIT: usize = PACKAGE_LIMIT - FRAME;

// Refusals 19 and 18, and the bundle, of an object with this word. The caller has cleared the output. That it is zero is asked of this and the following two, and is
// in no type: the first write ends it.
fn write_sections(a: &Accepted, word: u32, out: &mut [u8]) -> Result<usize, Unwritten>
    requires { out.old ≡ zeros (length out.old) }
    ensures answer { written_as result ≡ written_of (answered (bundle_of_word a.now.file.bytes.now (file_is a.now.file) word) (length out.old)) }
    ensures output { out.new ≡ output_of (answered (bundle_of_word a.now.file.bytes.now (file_is a.now.file) word) (length out.old)) (length out.old) }
{
    let room = crate::bundling::sections_room(a)?;
    if ROOM_LIMIT < room {
        return Err(Unwritten::Refused(Refusal::SectionTooLong));
    }
    let length = room + FRAME;
    if out.len() < length {
        return Err(Unwritten::Short(length));
    }
    crate::bundling::put_bundle(a, word, out);
    Ok(length)
}

// From a file that 31 lets pass. The caller has cleared the output.
fn read_accepted(a: &Accepted, out: &mut [u8]) -> Result<usize, Unwritten>
    requires { out.old ≡ zeros (length out.old) }
    ensures answer { written_as result ≡ written_of (answered (bundle_from a.now.file.bytes.now (file_is a.now.file)) (length out.old)) }
    ensures output { out.new ≡ output_of (answered (bundle_from a.now.file.bytes.now (file_is a.now.file)) (length out.old)) (length out.old) }
{
    if !crate::judging::all_readable(&a.file) {
        return Err(Unwritten::Refused(Refusal::UnreadableSection));
    }
    let info = crate::stating::first_info(a);
    let word = crate::stating::first_unit(a.file.big, info)?;
    write_sections(a, word, out)
}

// The same from any bytes.
#[tactic(auto, using(crate::proofs::Refusals::read_cases), unfolding(crate::specs::Reader::elf_read, octets::specs::Checked::mapped))]
fn read_into(f: &[u8], out: &mut [u8]) -> Result<usize, Unwritten>
    requires { out.old ≡ zeros (length out.old) }
    ensures answer { written_as result ≡ written_of (elf_read f.now (length out.old)) }
    ensures output { out.new ≡ output_of (elf_read f.now (length out.old)) (length out.old) }
{
    let accepted = Accepted::open(f)?;
    read_accepted(&accepted, out)
}

// Whatever the two hold: the bundle and zeros, 18 with the length needed, or a refusal; then the output is zeros only.
#[tactic(auto, unfolding(octets::specs::Octets::zeros))]
pub fn read_elf(f: &[u8], out: &mut [u8]) -> Written
    ensures answer { result ≡ written_of (elf_read f.now (length out.old)) }
    ensures output { out.new ≡ output_of (elf_read f.now (length out.old)) (length out.old) }
{
    out.fill(0);
    Written::from(read_into(f, out))
}

// The same of an ELF32 file, from any bytes.
#[tactic(auto, using(crate::proofs::Refusals::read32_cases), unfolding(crate::specs::Elf32::elf32_read, octets::specs::Checked::mapped))]
fn read_elf32_into(f: &[u8], out: &mut [u8]) -> Result<usize, Unwritten>
    requires { out.old ≡ zeros (length out.old) }
    ensures answer { written_as result ≡ written_of (elf32_read f.now (length out.old)) }
    ensures output { out.new ≡ output_of (elf32_read f.now (length out.old)) (length out.old) }
{
    let accepted = Accepted::open_elf32(f)?;
    read_accepted(&accepted, out)
}

// The same for ELF32: whatever the two hold, the bundle and zeros, 18 with the length needed, or a refusal; then the output is zeros only.
#[tactic(auto, unfolding(octets::specs::Octets::zeros))]
pub fn read_elf32(f: &[u8], out: &mut [u8]) -> Written
    ensures answer { result ≡ written_of (elf32_read f.now (length out.old)) }
    ensures output { out.new ≡ output_of (elf32_read f.now (length out.old)) (length out.old) }
{
    out.fill(0);
    Written::from(read_elf32_into(f, out))
}
