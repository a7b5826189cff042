// The str_offsets and str of one object remapped, for small cases of each kind: a line for each with both new sections, the
// first as hexadecimal digits and the second as text with a dot for each zero, or the refusal.
#![tactic(auto)]

ghost use Rattle.std.specs.Prelude.{◌≡◌, ◌+◌, ◌≤◌, ◌<◌, ◌^◌, length};
ghost use Rattle.strings.specs.Kept.{Inside};
ghost use Rattle.strings_remap.specs.Strung.{Stringable, Strung};
ghost use Rattle.strings_remap.specs.declared.Failure.TheVariants.{Refused};

use bundle::encoding::ObjectEncoding;
use numbers::limits::STRING_WORDS;
use numbers::refusals::Refusal;
use std::io;
use strings::table::{Place, StrOffsets, StringTable};

// Why there are no new sections.
#[derive(Clone, Copy)]
enum Failure {
    Refused(Refusal),
    // the table or the output of this program is too short for the case
    Short,
}

impl From<Refusal> for Failure {
    ghost from_gives = { λ r f. f ≡ Refused r };

    fn from(refusal: Refusal) -> Failure {
        Failure::Refused(refusal)
    }
}

// The new str_offsets from the front of the output, and the new str behind it: where str starts, and where it ends.
#[tactic(auto, using(crate::proofs::Sections::section_sizes))]
fn write_sections(
    o: StrOffsets,
    b: &[u8],
    table: &[u32],
    t: StringTable,
    output: &mut [u8],
) -> Result<(usize, usize), Failure>
    requires { Strung b.now o table.now t }
{
    let at = o.offsets.size;
    let size = t.size;
    if output.len() < at || output.len() - at < size {
        return Err(Failure::Short);
    }
    let first = strings::table::places_from(table.len());
    let last = first + t.entries;
    let section = o.section(b);
    section.write_piece(&table[first..last], output, 0);
    strings::sections::write_strings(b, table, t.count, output, at);
    Ok((at, at + size))
}

// Puts the strings of an object whose entries were counted, in a table that is cleared, and writes its sections. The table has its words and no more.
fn remap_entries(
    o: StrOffsets,
    b: &[u8],
    table: &mut [u32],
    memory: &mut [u32],
    output: &mut [u8],
) -> Result<(usize, usize), Failure>
    requires { Stringable b.now o (length table.old) (length memory.old) }
{
    table.fill(0);
    let mut kept = StringTable {
        count: 0,
        size: 0,
        entries: 0,
        over: false,
        room: table.len() / STRING_WORDS,
    };
    kept.add_strings(o, b, table, memory)?;
    if kept.over {
        return Err(Failure::Refused(Refusal::SectionTooLong));
    }
    write_sections(o, b, table, kept, output)
}

// The same where neither was judged yet, in a table and a memory that may be too short.
fn remap(
    o: StrOffsets,
    b: &[u8],
    table: &mut [u32],
    memory: &mut [u32],
    output: &mut [u8],
) -> Result<(usize, usize), Failure>
    requires { (length b.now < 2 ^ 32) × Inside b.now o.offsets × Inside b.now o.strings × (length table.old < 2 ^ 32) }
{
    let n = o.section(b).check_entries()?;
    let room = table.len() / STRING_WORDS;
    if room < n || memory.len() < o.strings.size {
        return Err(Failure::Short);
    }
    remap_entries(o, b, &mut table[..STRING_WORDS * room], memory, output)
}

// Its twin in package_search writes small letters, and says why both stand.
fn write_hexadecimal(rt: &impl Print, s: &[u8]) -> io::Result<()> {
    for b in s {
        print!(rt; "{b:02X}")?;
    }
    Ok(())
}

fn write_text(rt: &impl Print, s: &[u8]) -> io::Result<()> {
    for b in s {
        rt.write_all(&[if *b == 0 { b'.' } else { *b }])?;
    }
    Ok(())
}

fn write_both(rt: &impl Print, output: &[u8], at: usize, end: usize) -> io::Result<()> {
    if at <= end && end <= output.len() {
        write_hexadecimal(rt, &output[..at])?;
        print!(rt; " ")?;
        write_text(rt, &output[at..end])?;
    }
    Ok(())
}

fn tell(rt: &impl Print, o: StrOffsets, b: &[u8]) -> io::Result<()>
    requires { (length b.now < 2 ^ 32) × Inside b.now o.offsets × Inside b.now o.strings }
{
    let mut table = [0u32; 112];
    let mut memory = [0u32; 64];
    let mut output = [0u8; 256];
    match remap(o, b, &mut table, &mut memory, &mut output) {
        Ok((at, end)) => write_both(rt, &output, at, end)?,
        Err(Failure::Refused(refusal)) => print!(rt; "refused {}", refusal.number())?,
        Err(Failure::Short) => print!(rt; "short")?,
    }
    println!(rt)
}

// An object of a header, entries and str, each as they are.
#[tactic(auto, using(strings::proofs::StrOffsets::sound))]
fn show(
    rt: &impl Print,
    name: &str,
    e: ObjectEncoding,
    header: &[u8],
    entries: &[u32],
    text: &[u8],
) -> io::Result<()>
    requires header { length header.now ≤ 16 }
    requires entries { length entries.now ≤ 12 }
    requires text { length text.now ≤ 64 }
{
    print!(rt; "{name}: ")?;
    let w = e.width();
    let at = header.len();
    let end = at + w * entries.len();
    let mut b = [0u8; 192];
    octets::put_bytes(&mut b, 0, header);
    octets::put_numbers(e.big, w, entries, &mut b, at);
    octets::put_bytes(&mut b, end, text);
    tell(
        rt,
        StrOffsets {
            encoding: e,
            offsets: Place {
                start: 0,
                size: end,
            },
            strings: Place {
                start: end,
                size: text.len(),
            },
        },
        &b,
    )
}

fn version_4(big: bool, wide: bool) -> ObjectEncoding {
    ObjectEncoding {
        big,
        five: false,
        wide,
        long: true,
    }
}

fn version_5(big: bool, wide: bool) -> ObjectEncoding {
    ObjectEncoding {
        five: true,
        ..version_4(big, wide)
    }
}

// The example of FORMAT 4.3 in each encoding.
fn show_document(rt: &impl Print) -> io::Result<()> {
    let text = b"a\0bc\0";
    let e = &[2, 0, 2];
    show(rt, "example", version_4(false, false), b"", e, text)?;
    show(rt, "big-endian", version_4(true, false), b"", e, text)?;
    show(rt, "width 8", version_4(false, true), b"", e, text)?;
    show(
        rt,
        "width 8, big-endian",
        version_4(true, true),
        b"",
        e,
        text,
    )?;
    let h = b"\x10\0\0\0\x05\0\0\0";
    show(rt, "version 5", version_5(false, false), h, e, text)?;
    let h = b"\0\0\0\x10\0\x05\0\0";
    show(
        rt,
        "version 5, big-endian",
        version_5(true, false),
        h,
        e,
        text,
    )?;
    let h = b"\xFF\xFF\xFF\xFF\x1C\0\0\0\0\0\0\0\x05\0\0\0";
    show(rt, "version 5, width 8", version_5(false, true), h, e, text)?;
    let h = b"\xFF\xFF\xFF\xFF\0\0\0\0\0\0\0\x1C\0\x05\0\0";
    show(
        rt,
        "version 5, width 8, big-endian",
        version_5(true, true),
        h,
        e,
        text,
    )
}

fn show_strings(rt: &impl Print) -> io::Result<()> {
    let e = version_4(false, false);
    show(rt, "empty strings", e, b"", &[0, 1, 2], b"\0\0a\0")?;
    show(rt, "suffixes", e, b"", &[0, 1, 2, 3], b"abc\0")?;
    show(rt, "one string twice", e, b"", &[3, 0, 3], b"ab\0ab\0")?;
    show(rt, "front of another", e, b"", &[0, 4, 0], b"abc\0ab\0")?;
    show(rt, "unused strings", e, b"", &[4], b"abc\0de\0f\0")?;
    show(rt, "no entries", e, b"", &[], b"abc\0")?;
    show(
        rt,
        "no entries, version 5",
        version_5(false, false),
        b"\x04\0\0\0\x05\0\0\0",
        &[],
        b"",
    )
}

fn show_ill_formed_lengths(rt: &impl Print) -> io::Result<()> {
    let narrow = version_5(false, false);
    show(rt, "no header", narrow, b"", &[], b"a\0")?;
    show(
        rt,
        "header too short",
        narrow,
        b"\x03\0\0\0\x05\0\0",
        &[],
        b"a\0",
    )?;
    show(
        rt,
        "length of four less",
        narrow,
        b"\x04\0\0\0\x05\0\0\0",
        &[0],
        b"a\0",
    )?;
    show(
        rt,
        "length of the whole",
        narrow,
        b"\x0C\0\0\0\x05\0\0\0",
        &[0],
        b"a\0",
    )
}

fn show_ill_formed_fields(rt: &impl Print) -> io::Result<()> {
    let narrow = version_5(false, false);
    show(
        rt,
        "header of version 4",
        narrow,
        b"\x08\0\0\0\x04\0\0\0",
        &[0],
        b"a\0",
    )?;
    show(
        rt,
        "padding not zero",
        narrow,
        b"\x08\0\0\0\x05\0\x01\0",
        &[0],
        b"a\0",
    )?;
    show(
        rt,
        "other byte order",
        narrow,
        b"\0\0\0\x08\0\x05\0\0",
        &[0],
        b"a\0",
    )
}

fn show_ill_formed_wide(rt: &impl Print) -> io::Result<()> {
    let wide = version_5(false, true);
    show(
        rt,
        "header of width 4",
        wide,
        b"\x0C\0\0\0\x05\0\0\0",
        &[0],
        b"a\0",
    )?;
    let h = b"\xFE\xFF\xFF\xFF\x0C\0\0\0\0\0\0\0\x05\0\0\0";
    show(rt, "mark of width 8 wrong", wide, h, &[0], b"a\0")?;
    let h = b"\xFF\xFF\xFF\xFF\x0C\0\0\0\x01\0\0\0\x05\0\0\0";
    show(rt, "length above 32 bits", wide, h, &[0], b"a\0")
}

fn show_parts_of_entries(rt: &impl Print) -> io::Result<()> {
    show(
        rt,
        "part of an entry",
        version_4(false, false),
        b"\0\0",
        &[0],
        b"a\0",
    )?;
    show(
        rt,
        "half of an entry",
        version_4(false, true),
        b"\0\0\0\0",
        &[0],
        b"a\0",
    )?;
    show(rt, "8 before 9", version_4(false, false), b"\0", &[9], b"a")
}

fn show_missing(rt: &impl Print) -> io::Result<()> {
    let e = version_4(false, false);
    show(rt, "offset of the length", e, b"", &[2], b"a\0")?;
    show(rt, "offset beyond", e, b"", &[0, 3], b"a\0")?;
    show(rt, "greatest offset", e, b"", &[0xFFFF_FFFF], b"a\0")?;
    show(rt, "no zero", e, b"", &[0, 2], b"a\0b")?;
    show(rt, "no str", e, b"", &[0], b"")?;
    show(rt, "last zero is a string", e, b"", &[1], b"a\0")
}

fn main(rt: HostRuntime) -> io::Result<()> {
    show_document(&rt)?;
    show_strings(&rt)?;
    show_ill_formed_lengths(&rt)?;
    show_ill_formed_fields(&rt)?;
    show_ill_formed_wide(&rt)?;
    show_parts_of_entries(&rt)?;
    show_missing(&rt)
}
