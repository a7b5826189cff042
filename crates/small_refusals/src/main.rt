// Small bundles from standard input, each following a word with its length: for each the refusal, or the length of its package.
// The stored bundles are those of docs/DIFFERENCES.md that are refused, in its order, each refused by the number that it stands under there; following them
// lengths that 1 refuses and words that 3 refuses; then nine that are packed, and their lengths by hand, section by section with each section's word:
// - the example (FORMAT 14), 112; no object, 8; a bundle of 1,024 bytes, which gets a cu_index: 1,024 + 80;
// - version 4, packages whose rows share parts, of docs/DIFFERENCES.md, 16: two units with one part of abbrev, 8 + 44 + 16 + 108 + 4 = 180; a compilation unit and two type units,
//   8 + 24 + 52 + 16 + 68 + 108 + 4 = 280; a type kept already, the other one following it, 8 + 52 + 8 + 108 + 4 = 180;
// - version 5, packages of docs/DIFFERENCES.md, 10 and 34: without strings, 112, which is thorin's answer too; two parts of str_offsets,
//   8 + 44 + 8 + 28 + 12 + 128 + 4 = 232; one part that two units share, 8 + 44 + 8 + 16 + 8 + 128 + 4 = 216.
// Of the last six host/kit/src/reference, which shares no code with this program, makes packages of these lengths, and the definitions give the same bytes.
#![tactic(auto)]

use answers::Written;
use std::io;

fn tell_bundle(rt: &impl Print, b: &[u8]) -> io::Result<()> {
    let mut work = [0u32; 5120];
    let mut output = [0u8; 65536];
    match packer::pack_small(b, &mut work, &mut output) {
        Ok(length) => println!(rt; "packed {length}"),
        Err(unwritten) => println!(rt; "refused {}", Written::from(Err(unwritten)).code),
    }
}

// All bundles, up to a length that is not there whole.
fn tell_bundles(rt: &impl Print, input: &[u8]) -> io::Result<()> {
    let mut left = input;
    while let Some((length, rest)) = left.split_first_chunk() {
        let size = u32::from_le_bytes(*length) as usize;
        let Some((bundle, more)) = rest.split_at_checked(size) else {
            break;
        };
        tell_bundle(rt, bundle)?;
        left = more;
    }
    Ok(())
}

fn main(rt: HostRuntime) -> io::Result<()> {
    let mut input = [0u8; 65536];
    let got = terminal::read_full(&mut rt.stdin(), &mut input)?;
    tell_bundles(&rt, &input[..got])
}
