// The bundle check over small bundles, good and broken in each way that the format can break: a line with the verdict for each.
#![tactic(auto)]

ghost use Rattle.std.specs.Prelude.{◌≤◌, length};

use std::io;

// The refusal's number, or the byte order.
fn tell(rt: &impl Print, b: &[u8]) -> io::Result<()> {
    match bundle::check_words(b) {
        Ok(true) => println!(rt; ": big-endian"),
        Ok(false) => println!(rt; ": little-endian"),
        Err(refusal) => println!(rt; ": refused {}", refusal.number()),
    }
}

// A bundle of at most sixteen words.
fn tell_words(rt: &impl Print, words: &[u32]) -> io::Result<()>
    requires { length words.now ≤ 16 }
{
    let mut bytes = [0; 64];
    octets::put_numbers(false, 4, words, &mut bytes, 0);
    tell(rt, &bytes[..4 * words.len()])
}

fn show(rt: &impl Print, name: &str, words: &[u32]) -> io::Result<()>
    requires { length words.now ≤ 16 }
{
    print!(rt; "{name}")?;
    tell_words(rt, words)
}

fn show_bytes(rt: &impl Print, name: &str, b: &[u8]) -> io::Result<()> {
    print!(rt; "{name}")?;
    tell(rt, b)
}

// An empty section of each code that a word can state.
fn show_codes(rt: &impl Print) -> io::Result<()> {
    for code in 0..32 {
        print!(rt; "code {code}")?;
        tell_words(
            rt,
            &[
                0xF000_0000,
                0x1008_0405,
                0x2000_0000 + code * 0x80_0000,
                0x3000_0004,
            ],
        )?;
    }
    Ok(())
}

// A word of each kind behind the head, the rest of it zero.
fn show_kinds(rt: &impl Print) -> io::Result<()> {
    for kind in 0..16 {
        print!(rt; "kind {kind}")?;
        tell_words(rt, &[0xF000_0000, kind * 0x1000_0000, 0x3000_0003])?;
    }
    Ok(())
}

// One object with one section of at most four bytes.
fn show_section(rt: &impl Print, name: &str, word: u32, data: u32) -> io::Result<()> {
    show(
        rt,
        name,
        &[0xF000_0000, 0x1008_0405, word, data, 0x3000_0005],
    )
}

fn show_good(rt: &impl Print) -> io::Result<()> {
    show(rt, "no object", &[0xF000_0000, 0x3000_0002])?;
    show(rt, "no object, big-endian", &[0xF000_0001, 0x3000_0002])?;
    let two = [
        0xF000_0001,
        0x1008_0405,
        0x2080_0000,
        0x1008_0405,
        0x2180_0004,
        7,
        0x3000_0007,
    ];
    show(rt, "two objects", &two)?;
    show(rt, "version 255", &[0xF000_0000, 0x10FF_FFFF, 0x3000_0003])?;
    let looks = [
        0xF000_0000,
        0x1008_0405,
        0x2080_0008,
        0x3000_0003,
        0xF000_0000,
        0x3000_0006,
    ];
    show(rt, "words in a section", &looks)
}

// The bundle of FORMAT 14.
fn show_document(rt: &impl Print) -> io::Result<()> {
    let unit = [
        0xF000_0000,
        0x1008_0405,
        0x2080_0014,
        0x10,
        0x0805_0005,
        0,
        1,
        0,
        0x2180_0001,
        0,
        0x3000_000B,
    ];
    show(rt, "example", &unit)
}

fn show_heads(rt: &impl Print) -> io::Result<()> {
    show(rt, "head 2", &[0xF000_0002, 0x3000_0002])?;
    show(rt, "head of kind 14", &[0xE000_0000, 0x3000_0002])?;
    show(rt, "head twice", &[0xF000_0000, 0xF000_0000, 0x3000_0003])?;
    show(rt, "head alone", &[0xF000_0000])?;
    show(rt, "no head", &[0x3000_0001])?;
    show_bytes(rt, "nothing", b"")?;
    show_bytes(rt, "three bytes", b"\x00\x00\x00")
}

fn show_ends(rt: &impl Print) -> io::Result<()> {
    show(rt, "end missing", &[0xF000_0000, 0x1008_0405])?;
    show(rt, "end early", &[0xF000_0000, 0x3000_0002, 0x1008_0405])?;
    show(rt, "end twice", &[0xF000_0000, 0x3000_0003, 0x3000_0003])?;
    show_bytes(
        rt,
        "a byte behind the end",
        b"\x00\x00\x00\xF0\x02\x00\x00\x30\x00",
    )?;
    show(rt, "count too small", &[0xF000_0000, 0x3000_0001])?;
    show(rt, "count too large", &[0xF000_0000, 0x3000_0003])
}

fn show_objects(rt: &impl Print) -> io::Result<()> {
    show(rt, "object alone", &[0xF000_0000, 0x1008_0405, 0x3000_0003])?;
    show(
        rt,
        "object word, bit 24",
        &[0xF000_0000, 0x1108_0405, 0x3000_0003],
    )?;
    show(
        rt,
        "object word, bit 27",
        &[0xF000_0000, 0x1808_0405, 0x3000_0003],
    )?;
    show(
        rt,
        "section, no object",
        &[0xF000_0000, 0x2080_0000, 0x3000_0003],
    )?;
    show(
        rt,
        "section first",
        &[0xF000_0000, 0x2080_0000, 0x1008_0405, 0x3000_0004],
    )
}

fn show_sections(rt: &impl Print) -> io::Result<()> {
    show_section(rt, "length over the end", 0x2080_0005, 0)?;
    show_section(rt, "length past the end", 0x2080_0009, 0)?;
    show_section(rt, "greatest length", 0x20FF_FFFF, 0)?;
    show_section(rt, "length 4", 0x2080_0004, 0xFFFF_FFFF)?;
    show_section(rt, "length 1", 0x2080_0001, 0xFF)?;
    show_section(rt, "length 1, second byte", 0x2080_0001, 0x1FF)?;
    show_section(rt, "length 1, third byte", 0x2080_0001, 0x1_00FF)?;
    show_section(rt, "length 1, fourth byte", 0x2080_0001, 0x100_00FF)?;
    show_section(rt, "length 3", 0x2080_0003, 0xFF_FFFF)?;
    show_section(rt, "length 3, fourth byte", 0x2080_0003, 0x1FF_FFFF)
}

fn main(rt: HostRuntime) -> io::Result<()> {
    show_good(&rt)?;
    show_document(&rt)?;
    show_heads(&rt)?;
    show_ends(&rt)?;
    show_objects(&rt)?;
    show_sections(&rt)?;
    show_codes(&rt)?;
    show_kinds(&rt)
}
