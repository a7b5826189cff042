// Reads cases from standard input, each a unit with its abbreviations, and writes what reading it answers. CASES.md lists them.
#![tactic(auto)]

ghost use Rattle.std.specs.Prelude.{◌≤◌, ◌<◌, ◌^◌, length, IfOk, IfSome};

use bundle::encoding::ObjectEncoding;
use numbers::refusals::Refusal;
use std::io;
use unit::header::{UnitPlace, UnitRead};
use unit::judged::{Judged, Span};

// Bit 0 is big-endian data, bit 1 version 5, bit 2 offsets and bit 3 addresses of 8 bytes.
fn encoding(flags: u8) -> ObjectEncoding {
    ObjectEncoding {
        big: flags % 2 == 1,
        five: flags / 2 % 2 == 1,
        wide: flags / 4 % 2 == 1,
        long: flags / 8 % 2 == 1,
    }
}

fn write_answer(rt: &impl Print, answer: Result<UnitRead, Refusal>) -> io::Result<()> {
    match answer {
        Ok(UnitRead { size, handed_in }) => {
            let table = handed_in.table.number();
            println!(rt; "{size} {table} {:016x}", handed_in.identity)
        }
        Err(refusal) => println!(rt; "refused {}", refusal.number()),
    }
}

// The case at the front of s: flags, the section's code, the sizes of abbreviations and section, and both. What follows it, or nothing where it isn't there whole.
fn run_case<'a>(rt: &impl Print, s: &'a [u8], codes: &mut [u32]) -> io::Result<Option<&'a [u8]>>
    requires { (length s.now ≤ length codes.old) × (length s.now < 2 ^ 32) }
    ensures { IfOk result (λ more. IfSome more (λ rest. length rest.now < length s.now)) }
{
    let [flags, code, abbreviations, section, ..] = s else {
        return Ok(None);
    };
    let mid = 4 + usize::from(*abbreviations);
    let end = mid + usize::from(*section);
    if s.len() < end {
        return Ok(None);
    }
    let e = encoding(*flags);
    let place = UnitPlace {
        at: mid,
        size: end - mid,
        abbreviations: Span { at: 4, end: mid },
    };
    let mut judged = Judged::nothing();
    let answer = unit::header::read_unit(e, u32::from(*code), s, place, codes, &mut judged);
    write_answer(rt, answer)?;
    Ok(Some(&s[end..]))
}

fn run_cases(rt: &impl Print, s: &[u8], codes: &mut [u32]) -> io::Result<()>
    requires { (length s.now ≤ length codes.old) × (length s.now < 2 ^ 32) }
{
    let mut left = s;
    while let Some(more) = run_case(rt, left, codes)? {
        left = more;
    }
    Ok(())
}

fn main(rt: HostRuntime) -> io::Result<()> {
    let mut input = [0u8; 65536];
    let got = terminal::read_full(&mut rt.stdin(), &mut input)?;
    let mut codes = [0u32; 65536];
    run_cases(&rt, &input[..got], &mut codes)
}
