// A package's sections in order of code: measured, and their bytes, names and headers written.
ghost use Rattle.std.specs.Prelude.{◌≡◌, ◌+◌, ◌*◌, ◌≤◌, ◌<◌, ◌^◌, length};
ghost use Rattle.numbers.specs.Sections.{section_codes};
ghost use Rattle.octets.specs.Octets.{placed};
ghost use Rattle.elf_writer.specs.Held.{
  here,
  size_at,
  counted,
  name_at,
  body_at,
  header_at,
  place_after,
  joined_from,
  sum_from,
  headers_from,
  name_table_of,
  first_header,
  Measured,
  Bounded,
};

use crate::fields::SectionHeader;
use bundle::Scan;
use elf::file::HEADER;
use lookup::package::Package;
use numbers::names::section_name;
use numbers::sections::CODES;

const PROGRAM_BITS: u32 = 1;

const STRING_TABLE: u32 = 3;

// The number of sections, the bytes of all of them, and those of the name table.
#[derive(Clone, Copy)]
pub struct Extent {
    pub count: usize,
    pub bodies: usize,
    pub names: usize,
}

// Where a header stands, its name in the name table, and its section's bytes in the file.
#[derive(Clone, Copy)]
pub struct HeaderPlace {
    pub at: usize,
    pub name: usize,
    pub offset: usize,
}

// The sections of a package as a scan found them, none of them longer than a package may be. The names ask nothing of that: what puts them takes the
// scan itself.
#[derive(Clone, Copy)]
pub struct Sections {
    pub scan: Scan,
    pub ghost bounded: { Bounded scan },
}

#[tactic(auto, unfolding(crate::specs::Held::here))]
fn is_here(s: &Scan, code: usize) -> bool
    requires { code < section_codes }
    ensures { result ≡ here s.now code }
{
    0 < s.count[code]
}

impl Sections {
    // What was measured, and one section more, if it is there.
    fn extended(&self, e: Extent, code: usize) -> Extent
        requires { (code < section_codes) × (e.count < 2 ^ 32) × (e.bodies < 2 ^ 32) × (e.names < 2 ^ 32) }
        ensures count { result.count ≡ e.count + counted self.now.scan code }
        ensures bodies { result.bodies ≡ e.bodies + size_at self.now.scan code }
        ensures names { result.names ≡ e.names + length (name_at self.now.scan code) }
    {
        let bodies = e.bodies + self.scan.size[code];
        if !is_here(&self.scan, code) {
            return Extent { bodies, ..e };
        }
        let name = section_name(code);
        Extent {
            count: e.count + 1,
            bodies,
            names: e.names + name.len() + 1,
        }
    }

    // One pass over the codes.
    pub fn measure(&self) -> Extent
        ensures { Measured self.now.scan result }
    {
        // a zero byte, and `.shstrtab` with its own
        let mut e = Extent {
            count: 0,
            bodies: 0,
            names: 11,
        };
        for code in 1..CODES {
            e = self.extended(e, code);
        }
        e
    }
}

// ---- bytes
// The bytes of all sections follow the file's header.
pub fn put_bodies(package: &Package, d: &mut [u8])
    requires { 64 + length (joined_from (body_at «package».now.bytes.now) 1) ≤ length d.old }
    ensures { d.new ≡ placed d.old 64 (joined_from (body_at «package».now.bytes.now) 1) }
{
    let mut at = HEADER;
    for code in 1..CODES {
        let s = package.section_bytes(code);
        octets::put_bytes(d, at, s);
        at += s.len();
    }
}

// ---- names
// The name of a section that is there, with the zero that ends it. Returns the place following it.
fn put_name(s: &Scan, code: usize, d: &mut [u8], at: usize) -> usize
    requires { (code < section_codes) × (at + length (name_at s.now code) ≤ length d.old) }
    ensures next { result ≡ at + length (name_at s.now code) }
    ensures output { d.new ≡ placed d.old at (name_at s.now code) }
{
    if !is_here(s, code) {
        return at;
    }
    let name = section_name(code);
    let n = name.len();
    octets::put_bytes(d, at, name);
    octets::put_byte(d, at + n, 0);
    at + n + 1
}

// The names of all sections. Returns the place following them.
fn put_names(s: &Scan, d: &mut [u8], from: usize) -> usize
    requires { from + length (joined_from (name_at s.now) 1) ≤ length d.old }
    ensures next { result ≡ from + length (joined_from (name_at s.now) 1) }
    ensures output { d.new ≡ placed d.old from (joined_from (name_at s.now) 1) }
{
    let mut at = from;
    for code in 1..CODES {
        at = put_name(s, code, d, at);
    }
    at
}

// A zero byte, the sections' names, and the name of the name table itself.
pub fn put_name_table(s: Scan, d: &mut [u8], at: usize)
    requires { at + length (name_table_of s) ≤ length d.old }
    ensures { d.new ≡ placed d.old at (name_table_of s) }
{
    octets::put_byte(d, at, 0);
    let end = put_names(&s, d, at + 1);
    octets::put_bytes(d, end, b".shstrtab\0");
}

// ---- headers
impl Sections {
    // The header of a section that is there. Returns where the next one stands.
    fn put_header(&self, big: bool, code: usize, h: HeaderPlace, d: &mut [u8]) -> HeaderPlace
        requires { (code < section_codes) × (h.name < 2 ^ 31) × (h.offset < 2 ^ 31) × (h.at + 64 ≤ length d.old) }
        ensures next { result ≡ place_after self.now.scan code h }
        ensures output { d.new ≡ placed d.old h.at (header_at big self.now.scan code h) }
    {
        if !is_here(&self.scan, code) {
            return h;
        }
        let size = self.scan.size[code];
        let name = section_name(code);
        let header = SectionHeader {
            name: h.name,
            kind: PROGRAM_BITS,
            offset: h.offset,
            size,
        };
        crate::fields::put_section_header(big, header, d, h.at);
        HeaderPlace {
            at: h.at + HEADER,
            name: h.name + name.len() + 1,
            offset: h.offset + size,
        }
    }

    // The headers of all sections, and that of the name table, which has so many bytes.
    pub fn put_headers(&self, big: bool, table: usize, d: &mut [u8], from: usize)
        requires { (table < 2 ^ 32) × (from + 64 * (sum_from (counted self.now.scan) 1 + 1) ≤ length d.old) }
        ensures { d.new ≡ placed d.old from (headers_from big table self.now.scan (first_header from) 1) }
    {
        let mut h = HeaderPlace {
            at: from,
            name: 1,
            offset: HEADER,
        };
        for code in 1..CODES {
            h = self.put_header(big, code, h, d);
        }
        let header = SectionHeader {
            name: h.name,
            kind: STRING_TABLE,
            offset: h.offset,
            size: table,
        };
        crate::fields::put_section_header(big, header, d, h.at);
    }
}
