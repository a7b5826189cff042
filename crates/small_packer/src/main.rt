// The small packer: a bundle from standard input; the words of its package, or the refusal.
// The stored input and output are the example of FORMAT 14.
#![tactic(auto)]

ghost use Rattle.std.specs.Prelude.{◌≡◌, ◌<◌};
ghost use Rattle.small_packer.specs.Lines.{digit_of, line_of};

use answers::Written;
use std::io;

// The character of a digit, which callers have below 16.
#[tactic(auto, unfolding(crate::specs::Lines::digit_of))]
fn digit(d: u32) -> u8
    requires { d < 16 }
    ensures { result ≡ digit_of d }
{
    if d < 10 {
        b'0' + d as u8
    } else {
        b'A' - 10 + d as u8
    }
}

// A word as a line. Its digits are made here, since its clause says which they are. No clause says what `{:08X}` writes; and of the library `hex`, the
// function for bytes that are lent writes small letters, where the format has capitals, and the one that writes capitals needs a heap.
#[tactic(auto, unfolding(crate::specs::Lines::line_of))]
fn line(word: u32) -> [u8; 9]
    ensures { result ≡ line_of word }
{
    [
        digit(word / 0x1000_0000),
        digit(word / 0x100_0000 % 16),
        digit(word / 0x10_0000 % 16),
        digit(word / 0x1_0000 % 16),
        digit(word / 0x1000 % 16),
        digit(word / 0x100 % 16),
        digit(word / 0x10 % 16),
        digit(word % 16),
        10,
    ]
}

// The words of a package, a line for each.
fn tell_package(rt: &impl Print, p: &[u8]) -> io::Result<()> {
    for i in 0..p.len() / 4 {
        let text = line(octets::word_at(p, 4 * i));
        rt.write_all(&text)?;
    }
    Ok(())
}

// One byte more than a bundle may have is enough to see that it has too many. Both arrays that packing works in are the program's own.
fn main(rt: HostRuntime) -> io::Result<()> {
    let mut input = [0u8; 1025];
    let got = terminal::read_full(&mut rt.stdin(), &mut input)?;
    let mut work = [0u32; 5120];
    let mut output = [0u8; 65536];
    match packer::pack_small(&input[..got], &mut work, &mut output) {
        Ok(length) => tell_package(&rt, &output[..length]),
        Err(unwritten) => println!(rt; "refused {}", Written::from(Err(unwritten)).code),
    }
}
