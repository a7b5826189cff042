// The wanted sections, measured (19) and written as a bundle.
ghost use Rattle.std.specs.Prelude.{◌≡◌, ◌+◌, ◌<◌, length};
ghost use Rattle.numbers.specs.Refused.{told};
ghost use Rattle.elf.specs.Held.{
  header_sections,
  all_sections,
  room_of,
  room_sum,
  Fits,
  Appended,
  Writable,
  one_object,
  filled_with,
};

use crate::accepted::Accepted;
use numbers::limits::SECTION_LIMIT;
use numbers::refusals::Refusal;

// What the section of one header takes with its word, in bytes; nothing where it isn't wanted.
fn header_room(a: &Accepted, i: usize) -> Result<usize, Refusal>
    requires { i < a.now.file.count }
    ensures { told result ≡ room_of (header_sections a.now.file i) }
{
    let Some(s) = a.section(i) else {
        return Ok(0);
    };
    if SECTION_LIMIT < s.bytes.len() {
        return Err(Refusal::SectionTooLong);
    }
    Ok(4 + bundle::filled_up(s.bytes.len()))
}

// What all wanted sections take.
pub fn sections_room(a: &Accepted) -> Result<usize, Refusal>
    ensures { told result ≡ room_of (all_sections a.now.file) }
{
    let mut total = 0;
    for i in 0..a.file.count {
        total += header_room(a, i)?;
    }
    Ok(total)
}

// The section of one header, where it is wanted, following what is written. Returns the place that follows it.
fn put_wanted(a: &Accepted, i: usize, out: &mut [u8], at: usize) -> usize
    requires { (i < a.now.file.count) × Fits (header_sections a.now.file i) at out.old }
    ensures next { result ≡ at + room_sum (header_sections a.now.file i) }
    ensures output { Appended (header_sections a.now.file i) at out.old out.new }
{
    match a.section(i) {
        None => at,
        Some(s) => bundle::put_section(s.code as u32, s.bytes, out, at),
    }
}

// The wanted sections, following what is written. Returns the place that follows them.
fn put_sections(a: &Accepted, out: &mut [u8], from: usize) -> usize
    requires { Fits (all_sections a.now.file) from out.old }
    ensures next { result ≡ from + room_sum (all_sections a.now.file) }
    ensures output { Appended (all_sections a.now.file) from out.old out.new }
{
    let mut at = from;
    for i in 0..a.file.count {
        at = put_wanted(a, i, out, at);
    }
    at
}

// The bundle of one object with the wanted sections. The caller has cleared and measured the output.
pub fn put_bundle(a: &Accepted, word: u32, out: &mut [u8])
    requires { Writable (all_sections a.now.file) out.old }
    ensures { out.new ≡ filled_with (one_object a.now.file.big word (all_sections a.now.file)) (length out.old) }
{
    bundle::put_head(a.file.big, out);
    bundle::put_object(word, out, 4);
    let at = put_sections(a, out, 8);
    bundle::put_end(out, at);
}
