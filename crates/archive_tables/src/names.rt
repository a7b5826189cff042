// Section codes and names.
ghost use Rattle.std.specs.Prelude.{◌≡◌, ◌<◌, map};
ghost use Rattle.numbers.specs.Sections.{section_codes};
ghost use Rattle.archive_tables.specs.NameRule.{words, word_of, name_by_rule};

use numbers::names::NAME_LIMIT;
use numbers::sections::{CODES, STR};
use std::io;

// The words, from code 1 on.
const WORDS: [&[u8]; 13] = [
    b"info",
    b"types",
    b"abbrev",
    b"line",
    b"loc",
    b"str_offsets",
    b"macinfo",
    b"macro",
    b"loclists",
    b"rnglists",
    b"str",
    b"cu_index",
    b"tu_index",
];

// The one place that reads the words.
#[tactic(auto, unfolding(crate::specs::NameRule::words))]
fn words() -> [&'static [u8]; 13]
    ensures { map (λ word. word.now) result ≡ words }
{
    WORDS
}

#[tactic(auto, using(numbers::proofs::NameTable::bytes_at), unfolding(crate::specs::NameRule::word_of))]
fn word_of(code: usize) -> &'static [u8]
    requires { (0 < code) × (code < section_codes) }
    ensures { result.now ≡ word_of code }
{
    let words = words();
    words[code - 1]
}

// The name of the section of a code, put together from its word in the room that is lent for it.
fn name_by_rule(code: usize, room: &mut [u8; NAME_LIMIT]) -> &[u8]
    requires { (0 < code) × (code < section_codes) }
    ensures { result.now ≡ name_by_rule code }
{
    let word = word_of(code);
    let end = 7 + word.len();
    octets::put_bytes(room, 0, b".debug_");
    octets::put_bytes(room, 7, word);
    if STR < code {
        return &room[..end];
    }
    octets::put_bytes(room, end, b".dwo");
    &room[..end + 4]
}

fn print_name(rt: &impl Print, code: usize) -> io::Result<()>
    requires { (0 < code) × (code < section_codes) }
{
    let mut room = [0; NAME_LIMIT];
    let name = name_by_rule(code, &mut room);
    print!(rt; "{code} ")?;
    rt.write_all(name)?;
    rt.write_all(b"\n")
}

pub fn print_names(rt: &impl Print) -> io::Result<()> {
    for code in 1..CODES {
        print_name(rt, code)?;
    }
    Ok(())
}
