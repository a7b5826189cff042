// Looks up in a package from standard input, by version 5 and in the compilation table: identity 1 at each section code and 0 and 11, its strings
// 0 to 2, and identity 2. For each question a line: code, start, length, looks, and the bytes of the part that the lookup hands out.
#![tactic(auto)]

use lookup::answering::{Answer, Handed};
use lookup::searching::UnitAsked;
use std::io;

// Its twin in strings_remap writes capitals. A format is a literal, so that one function of both would choose between two at each byte: no plainer.
fn write_hexadecimal(rt: &impl Print, s: &[u8]) -> io::Result<()> {
    for b in s {
        print!(rt; "{b:02x}")?;
    }
    Ok(())
}

fn write_answer(rt: &impl Print, handed: Handed) -> io::Result<()> {
    let Handed { part, answer } = handed;
    let Answer {
        code,
        start,
        length,
        looks,
    } = answer;
    print!(rt; "{code} {start} {length} {looks} ")?;
    write_hexadecimal(rt, part)?;
    println!(rt)
}

fn unit(identity: u64) -> UnitAsked {
    UnitAsked {
        version: 5,
        table: 1,
        identity,
    }
}

fn ask_part(rt: &impl Print, package: &[u8], identity: u64, section: u32) -> io::Result<()> {
    let handed = lookup::answering::look_up(package, unit(identity), section);
    write_answer(rt, handed)
}

fn ask_string(rt: &impl Print, package: &[u8], entry: u64) -> io::Result<()> {
    let handed = lookup::answering::look_up_string(package, unit(1), entry);
    write_answer(rt, handed)
}

fn ask_sections(rt: &impl Print, package: &[u8]) -> io::Result<()> {
    for section in 0..12 {
        ask_part(rt, package, 1, section)?;
    }
    Ok(())
}

fn ask_strings(rt: &impl Print, package: &[u8]) -> io::Result<()> {
    for entry in 0..3 {
        ask_string(rt, package, entry)?;
    }
    Ok(())
}

fn main(rt: HostRuntime) -> io::Result<()> {
    let mut buffer = [0u8; 1024];
    let got = terminal::read_full(&mut rt.stdin(), &mut buffer)?;
    let package = &buffer[..got];
    ask_sections(&rt, package)?;
    ask_strings(&rt, package)?;
    ask_part(&rt, package, 2, 1)
}
