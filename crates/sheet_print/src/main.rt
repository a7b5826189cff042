// A package from standard input: its sheet, or the refusal. Longer packages than 65,536 bytes are cut there, and refused for it.
// The stored input is the package of FORMAT 14, the stored output its sheet there.
#![tactic(auto)]

use answers::Written;
use std::io;

fn tell_sheet(rt: &impl Print, package: &[u8], page: &mut [u8]) -> io::Result<()> {
    let Written { code, length } = sheet::writing::write_sheet(package, page);
    if code != 0 {
        return println!(rt; "refused {code}");
    }
    rt.write_all(&page[..length])
}

fn main(rt: HostRuntime) -> io::Result<()> {
    let mut input = [0u8; 65536];
    let got = terminal::read_full(&mut rt.stdin(), &mut input)?;
    let mut page = [0u8; 327680];
    tell_sheet(&rt, &input[..got], &mut page)
}
