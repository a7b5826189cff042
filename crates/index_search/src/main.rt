// Reads lines of text and answers each. "l" or "b", a space and hexadecimal digits: an index section, little-endian or big-endian; the
// answer is its version, columns, units and slots, or "bad". "s", a space and 16 digits: an identity to look for in the last section;
// the answer is its row, the number of looks and the cells of the sections 1 to 10, or "absent" and the number of looks.
// The last 20 lines of the stored input are odd ones: capital letters, a digit or a space missing, what is no digit, an empty line.
#![tactic(auto)]

ghost use Rattle.std.specs.Prelude.{◌≡◌, ◌<◌, ◌≤◌, length};

use index::cells::{Contribution, Row};
use index::probing::Probed;
use index::reading::Index;
use std::io;

// The longest section that is read.
const SECTION: usize = 4096;

// Hexadecimal digits have small letters.
fn is_digit(b: u8) -> bool {
    matches!(b, b'0'..=b'9' | b'a'..=b'f')
}

// The bytes that the digits at the front of a text state, as many as there is room for. How many there are.
fn read_bytes(text: &[u8], room: &mut [u8]) -> usize
    ensures count { result ≤ length room.new }
    ensures kept { length room.new ≡ length room.old }
{
    let digits = text
        .iter()
        .position(|b| !is_digit(*b))
        .unwrap_or(text.len());
    let n = (digits / 2).min(room.len());
    hex::decode_to_slice(&text[..2 * n], &mut room[..n]).ok();
    n
}

// The number of 8 bytes that they state; bytes that are not stated are zero.
fn read_identity(text: &[u8]) -> u64 {
    let mut identity = [0; 8];
    read_bytes(text, &mut identity);
    u64::from_be_bytes(identity)
}

// What stands behind the line at the front of a text.
fn behind_line(text: &[u8]) -> &[u8]
    requires { 0 < length text.now }
    ensures { length result.now < length text.now }
{
    match text.iter().position(|b| *b == b'\n') {
        Some(i) => &text[i + 1..],
        None => &[],
    }
}

fn write_cell(rt: &impl Print, cell: Option<Contribution>) -> io::Result<()> {
    match cell {
        Some(Contribution { offset, size }) => print!(rt; " {offset}+{size}"),
        None => print!(rt; " -"),
    }
}

fn write_cells(rt: &impl Print, row: Row) -> io::Result<()> {
    for section in 1..11 {
        write_cell(rt, row.cell(section))?;
    }
    Ok(())
}

fn answer_search(rt: &impl Print, big: bool, s: &[u8], x: u64) -> io::Result<()> {
    let Ok(index) = Index::read(big, s) else {
        return println!(rt; "bad");
    };
    let Probed { slot, looks } = index.find(x);
    match slot {
        Some(slot) => {
            let number = index.row_at(slot);
            print!(rt; "row {number} {looks}")?;
            let row = Row {
                index: &index,
                number,
            };
            write_cells(rt, row)?;
        }
        None => print!(rt; "absent {looks}")?,
    }
    println!(rt)
}

fn answer_index(rt: &impl Print, big: bool, s: &[u8]) -> io::Result<()> {
    let Ok(index) = Index::read(big, s) else {
        return println!(rt; "bad");
    };
    let head = index.head();
    println!(rt;
        "index {} {} {} {}",
        head.version, head.columns, head.units, head.slots
    )
}

// Of a line, the first byte says what it is, and digits stand behind the byte that follows it, whatever that is.
fn answer_lines(rt: &impl Print, text: &[u8]) -> io::Result<()> {
    let mut room = [0; SECTION];
    let mut big = false;
    let mut size = 0;
    let mut rest = text;
    while let [kind, _, digits @ ..] = rest {
        if *kind == b's' {
            answer_search(rt, big, &room[..size], read_identity(digits))?;
        } else {
            big = *kind == b'b';
            size = read_bytes(digits, &mut room);
            answer_index(rt, big, &room[..size])?;
        }
        rest = behind_line(rest);
    }
    Ok(())
}

fn main(rt: HostRuntime) -> io::Result<()> {
    let mut text = [0u8; 32768];
    let got = terminal::read_full(&mut rt.stdin(), &mut text)?;
    answer_lines(&rt, &text[..got])
}
