// A line of the sheet, field by field.
ghost use Rattle.std.specs.Prelude.{◌≡◌, [], ◌∷◌, ◌++◌, ◌+◌, ◌≤◌, ◌<◌, length};
ghost use Rattle.octets.specs.Octets.{placed};
ghost use Rattle.sheet.specs.Sheet.{line_bytes, digit, hex, decimal, space, line};

#[derive(Clone, Copy)]
pub struct Line {
    // C or T
    pub letter: u8,
    pub identity: u64,
    // our code
    pub section: usize,
    pub offset: usize,
    pub size: usize,
}

const SPACE: u8 = 32;

const NEWLINE: u8 = 10;

pub const LINE: usize = 40;

// From 10 on 39 is added, which is how far a stands from the byte that follows 9. No branch, since the processor could not predict it.
#[tactic(auto, using(crate::proofs::LawLines::digit_is))]
fn digit(n: u64) -> u8
    requires { n < 16 }
    ensures { result ≡ digit n }
{
    (48 + n + (n + 6) / 16 * 39) as u8
}

// Stores the low w hexadecimal digits of n, by number: with `iter_mut().rev()` the proof did not close. The library's `hex::encode_to_slice` would be no
// plainer: it takes bytes, so a cell's numbers would first be proved to have 32 bits and be cut into them, and the static library would stand on more
// than `std`.
fn put_hex(w: usize, n: u64, d: &mut [u8], at: usize)
    requires { at + w ≤ length d.old }
    ensures { d.new ≡ placed d.old at (hex w n) }
{
    let mut m = n;
    for i in (0..w).rev() {
        d[at + i] = digit(m % 16);
        m /= 16;
    }
}

// The same, and a byte following them.
#[tactic(auto, using(crate::proofs::LawLines::placed_next, crate::proofs::LawLines::length_hex))]
fn put_field(w: usize, n: u64, end: u8, d: &mut [u8], at: usize)
    requires { at + w + 1 ≤ length d.old }
    ensures { d.new ≡ placed d.old at (hex w n ++ (end ∷ [])) }
{
    put_hex(w, n, d, at);
    octets::put_byte(d, at + w, end);
}

// Two decimal digits and a space.
#[tactic(auto, unfolding(crate::specs::Sheet::decimal))]
fn put_section(n: usize, d: &mut [u8], at: usize)
    requires { (n < 100) × (at + 3 ≤ length d.old) }
    ensures { d.new ≡ placed d.old at (decimal n ++ (space ∷ [])) }
{
    let m = n as u64;
    octets::put_bytes(d, at, &[digit(m / 10), digit(m % 10), SPACE]);
}

impl Line {
    #[tactic(auto, using(crate::proofs::LawLines::line_placed))]
    pub fn put(self, d: &mut [u8], at: usize)
        requires { (self.section < 100) × (at + line_bytes ≤ length d.old) }
        ensures { d.new ≡ placed d.old at (line self.letter self.identity self.section self.offset self.size) }
    {
        octets::put_bytes(d, at, &[self.letter, SPACE]);
        put_field(16, self.identity, SPACE, d, at + 2);
        put_section(self.section, d, at + 19);
        put_field(8, self.offset as u64, SPACE, d, at + 22);
        put_field(8, self.size as u64, NEWLINE, d, at + 31);
    }
}
